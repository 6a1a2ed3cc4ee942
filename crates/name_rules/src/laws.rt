ghost use Rattle.name_rules.specs.Laws.{LastOneSays, OneName, OneSpelling};

/// What a name stands for is what the last entry about it says.
pub fn names_are_what_was_said_last()
    ensures { LastOneSays }
{}

/// No two names have one place in the order.
pub fn one_name_at_a_place()
    ensures { OneName }
{}

/// A change is spelled in one way, and nothing else is read as it.
pub fn one_spelling_of_a_change()
    ensures { OneSpelling }
{}
