ghost use Rattle.serve_rules.specs.Laws.{EndsOrIsKept, LettingGoIsSilent, ProcessIsAfter, RefusedLinesAreSilent};

/// A served process is what its actor is after what has come to it.
pub fn the_process_is_its_actor()
    ensures { ProcessIsAfter }
{}

/// A refused line is answered by its fault, comes to no actor, and changes nothing.
pub fn refused_lines_are_silent()
    ensures { RefusedLinesAreSilent }
{}

/// A line by which the parent lets go is not answered, comes to no actor, and changes nothing of the process.
pub fn letting_go_is_silent()
    ensures { LettingGoIsSilent }
{}

/// The answer to a command ends with the command's own step, or it stays open, and never both.
pub fn answers_end_or_are_kept()
    ensures { EndsOrIsKept }
{}
