ghost use Rattle.std.specs.Prelude.{◌≡◌, IfOk, OnErr};
ghost use Rattle.line_format.specs.Lines.{event_of};

use crate::command::read_command;
use crate::event_line::{EventLine, TickReadings, copy_of, read_event_line, read_junk};
use fabric_terms::Event;
use line_format::BadLine;

/// The event of a schedule's line, without its line feed. BadLine comes exactly where the bytes are none.
/// Whether the line is ignored, and whether it is too long, is the caller's matter.
pub fn read_event(line: &[u8]) -> Result<Event, BadLine>
    ensures ok { IfOk result (λ e. event_of line.now ≡ Some e) }
    ensures err { OnErr result (event_of line.now ≡ None) }
{
    let mut readings = TickReadings::new();
    match read_event_line(line, &mut readings)? {
        EventLine::Start { actor, reading } => Ok(Event::Start { actor, reading }),
        EventLine::Stop { actor } => Ok(Event::Stop { actor }),
        EventLine::Tick { advance } => Ok(Event::Tick {
            advance,
            readings: copy_of(readings.as_slice()),
        }),
        EventLine::Fire { node } => Ok(Event::Fire { node }),
        EventLine::Give { frame } => Ok(Event::Give { frame }),
        EventLine::Do { node, words } => Ok(Event::Do {
            node,
            command: read_command(words)?,
        }),
        EventLine::Junk { actor, digits } => Ok(Event::Junk {
            actor,
            bytes: read_junk(digits)?,
        }),
    }
}
