ghost use Rattle.fabric_c.specs.Laws.{HaveOwnLines};
ghost use Rattle.fabric_c.specs.Lines.{frame_line, record_line};

/// No two frames have one line.
pub fn frames_have_own_lines()
    ensures { HaveOwnLines frame_line }
{}

/// No two records have one line.
pub fn records_have_own_lines()
    ensures { HaveOwnLines record_line }
{}
