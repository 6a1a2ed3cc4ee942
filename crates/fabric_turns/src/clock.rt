ghost use Rattle.std.specs.Prelude.{◌≡◌, OnOk, length};
ghost use Rattle.fabric_turns.specs.Steps.{ReadsNow};

use crate::run::Run;
use edge_io::Outside;
use ring_points::MAX_READING;
use turn_rules::StopCause;

/// Reads the clock. The reading is the last one from now on, at most `MAX_READING` ticks. `ClockBack` comes exactly where
/// it is below the former one.
pub fn read_clock<O: Outside>(outside: &mut O, run: &mut Run) -> Result<u64, StopCause>
    ensures reads { ReadsNow run.old (O.told outside.old) run.new (O.told outside.new) result }
    ensures same { OnOk result (length run.new.members ≡ length run.old.members) }
{
    let told = outside.now();
    let reading = told.min(MAX_READING);
    match run.last() {
        Some(last) if reading < last => Err(StopCause::ClockBack(last, reading)),
        _ => {
            run.note(reading);
            Ok(told)
        }
    }
}
