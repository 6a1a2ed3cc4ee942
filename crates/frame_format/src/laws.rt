ghost use Rattle.frame_format.specs.Laws.{OneSpelling, ShortSpelling};

/// Two messages of the grammar with one spelling are one message. With `encode` and `decode`: a message has one frame,
/// and a frame one message.
pub fn one_spelling()
    ensures { OneSpelling }
{}

/// No message of the grammar has a spelling of more than `FRAME_LIMIT` bytes.
pub fn short_spelling()
    ensures { ShortSpelling }
{}
