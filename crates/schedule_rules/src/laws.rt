ghost use Rattle.schedule_rules.specs.Laws.{AcceptedIsValid, OneOutput};

/// One text at most is written of a schedule: its output is determined by its bytes.
pub fn one_output()
    ensures { OneOutput }
{}

/// Whatever the bytes are, what is accepted of them is a valid schedule of a sound configuration.
pub fn accepted_is_valid()
    ensures { AcceptedIsValid }
{}
