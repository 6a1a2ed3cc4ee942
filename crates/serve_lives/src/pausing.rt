// The time between two lives.
ghost use Rattle.serve_lives.specs.Rows.{OnlyRead};

use serve_turns::{Board, Handover};

/// Passes so many ticks of the clock. What is read of it belongs to no life. Each rest comes behind a sync; where that
/// has failed, no time passes.
pub(crate) fn pass_time<O: Handover, B: Board>(outside: &mut O, board: &mut B, ticks: u64)
    ensures { OnlyRead (O.told outside.old) (O.told outside.new) }
{
    let begun = outside.now();
    for _look in 0..u64::MAX {
        let reading = outside.now();
        let passed = reading.saturating_sub(begun);
        if ticks <= passed {
            return;
        }
        if !outside.settle() {
            return;
        }
        board.rest(outside, ticks - passed, None);
    }
}
