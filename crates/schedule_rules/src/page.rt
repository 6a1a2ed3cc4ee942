// The text that waits for the sink.
ghost use Rattle.std.specs.Prelude.{◌≡◌, ◌<◌, length, IsOk};
ghost use Rattle.edge_io.specs.Edge.{HasCauseOf};
ghost use Rattle.schedule_rules.specs.Halts.{Sends, WroteFault, full, rest_after};

use edge_io::{EdgeRefusal, Sink, write_all};
use fabric_status::{Status, push_fault, write_last};
use std::alloc::Global;

/// With so many bytes or more the text is written to the sink.
const FULL: usize = 65_536;

/// Writes the text to the sink and empties it where it is full, with 65,536 bytes or more, so that its room does not
/// grow with the run; a shorter one waits on. Of a text that a sink refuses a front may be written, and the text is
/// left as it was.
pub fn send_full<K: Sink>(sink: &mut K, text: &mut Vec<u8>) -> Result<(), EdgeRefusal>
    ensures sent { Sends result (K.held sink.old) (K.held sink.new) text.old.items text.new.items }
    ensures rest { text.new.items ≡ rest_after result text.old.items }
    ensures short { length text.old.items < full → IsOk result }
    ensures cause { HasCauseOf EdgeRefusal.Failed (K.faults sink.old) (K.faults sink.new) result }
{
    if text.len() < FULL {
        return Ok(());
    }
    write_all(sink, text)?;
    text.clear();
    Ok(())
}

/// Writes the text and behind it the line that names this status, and gives the status where all of it is written; else
/// `WriteFault`, and the sink has a front of it, or `OutOfMemory`, and the sink has a front of it, or nothing more.
pub fn write_fault<K: Sink>(
    alloc: Global,
    sink: &mut K,
    text: &mut Vec<u8>,
    status: Status,
) -> Status
    ensures { WroteFault status text.old.items result (K.held sink.old) (K.held sink.new) (K.faults sink.old)
        (K.faults sink.new) }
{
    match push_fault(alloc, text, status) {
        Ok(()) => write_last(sink, text, status),
        Err(_) => Status::OutOfMemory,
    }
}
