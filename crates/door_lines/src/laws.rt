ghost use Rattle.text_fields.specs.Inverses.{IsRest};
ghost use Rattle.text_fields.specs.Numbers.{IsIn, most_long};
ghost use Rattle.door_lines.specs.Replies.{RepliesHaveOneLine};
ghost use Rattle.door_lines.specs.Requests.{AskedReadIsSpelled, SpelledAskedIsRead, done_of, parent_done_text};

/// Each line that a speaker may ask has one spelling, and nothing else is read.
pub fn one_asked_spelling()
    ensures read { AskedReadIsSpelled }
    ensures spelled { SpelledAskedIsRead }
{}

/// The line by which a parent answers that it has let go has one spelling, and nothing else is read.
pub fn one_done_spelling()
    ensures { IsRest done_of (IsIn 1 most_long) parent_done_text }
{}

/// Two replies that differ have two lines: of an answer, of its end, and of what is given up.
pub fn replies_have_one_line()
    ensures { RepliesHaveOneLine }
{}
