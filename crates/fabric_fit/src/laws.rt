ghost use Rattle.unit_rules.specs.Fabric.{fabric};
ghost use Rattle.fabric_fit.specs.Steps.{ArbitersBeginInFormat, ArbitersStayInFormat, NodesBeginInFormat};
ghost use Rattle.fabric_fit.specs.Steps.{NodesStayInFormat};
ghost use Rattle.frames_fit.specs.Laws.{FramesAreInFormat, ReportsAreInRange};

/// Every frame of a valid schedule, whose events are in their ranges, is in the ranges of frames.
pub fn every_frame_is_in_format()
    ensures { FramesAreInFormat fabric }
{}

/// Every report of the run of such a schedule has a line, from which it is read back.
pub fn every_report_is_in_range()
    ensures { ReportsAreInRange fabric }
{}

/// A node that begins from records in range, and takes inputs in range, in any order and forged frames too, stays in
/// range; so does all that it records and tells, and all that it sends are frames. No schedule is asked for.
pub fn each_step_of_a_node_is_in_format()
    ensures begins { NodesBeginInFormat }
    ensures stays { NodesStayInFormat }
{}

/// The same of an arbitrator.
pub fn each_step_of_an_arbitrator_is_in_format()
    ensures begins { ArbitersBeginInFormat }
    ensures stays { ArbitersStayInFormat }
{}
