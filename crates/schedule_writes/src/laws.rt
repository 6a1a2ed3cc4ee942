ghost use Rattle.schedule_writes.specs.Laws.{OneOutput};

/// One text at most is written of a schedule: its committed writes are determined by its bytes.
pub fn one_output()
    ensures { OneOutput }
{}
