ghost use Rattle.frames_fit.specs.Laws.{FramesAreInFormat, ReportsAreInRange};
ghost use Rattle.world_rules.specs.Nothing.{nothing};

use crate::above::InFormat;
use world_rules::Nothing;

/// In every valid schedule of a sound configuration whose events are in their ranges, every frame that is ever sent is
/// in the ranges of frames.
pub fn frames_are_in_format<A: InFormat>()
    ensures { FramesAreInFormat A.upper }
{}

/// Every report of the run of such a schedule is in the ranges of reports, so each has a line and is read back from it.
pub fn reports_are_in_range<A: InFormat>()
    ensures { ReportsAreInRange A.upper }
{}

/// Every frame is in the ranges of frames where nothing runs above the ring.
pub fn frames_are_in_format_with_nothing_above()
    ensures { FramesAreInFormat nothing }
{
    frames_are_in_format::<Nothing>()
}
