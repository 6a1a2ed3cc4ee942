// When the text that waits goes to the sink.
ghost use Rattle.std.specs.Prelude.{◌≡◌, ◌++◌, [], IsTrue, OnErr};
ghost use Rattle.edge_io.specs.Edge.{HasCauseOf};
ghost use Rattle.fabric_status.specs.Faults.{fault_line};
ghost use Rattle.fabric_status.specs.Writes.{Wrote};
ghost use Rattle.schedule_rules.specs.Halts.{Sends};
ghost use Rattle.source_lines.specs.Reading.{may_wait};

use edge_io::{EdgeRefusal, Sink, write_all};
use fabric_status::Status;
use schedule_rules::{send_full, write_fault};
use source_lines::LineReader;
use std::alloc::Global;

/// Writes what waits. Of a text that the sink refuses a front may be written, and nothing of it waits on, so that no
/// byte is written twice.
fn send_waiting<K: Sink>(text: &mut Vec<u8>, sink: &mut K) -> Result<(), EdgeRefusal>
    ensures sent { Sends result (K.held sink.old) (K.held sink.new) text.old.items text.new.items }
    ensures emptied { text.new.items ≡ [] }
    ensures cause { HasCauseOf EdgeRefusal.Failed (K.faults sink.old) (K.faults sink.new) result }
{
    let sent = write_all(sink, text);
    text.clear();
    sent
}

/// Writes what waits before the next line may wait for the source, so that lines that come one by one are answered one
/// by one; else where the text is full. Of a text that the sink refuses a front may be written, and nothing of it waits
/// on.
pub fn send_due<K: Sink>(
    lines: &LineReader,
    text: &mut Vec<u8>,
    sink: &mut K,
) -> Result<(), EdgeRefusal>
    ensures sent { Sends result (K.held sink.old) (K.held sink.new) text.old.items text.new.items }
    ensures emptied { IsTrue (may_wait lines.now) → text.new.items ≡ [] }
    ensures refused { OnErr result (text.new.items ≡ []) }
    ensures cause { HasCauseOf EdgeRefusal.Failed (K.faults sink.old) (K.faults sink.new) result }
{
    if lines.may_wait() {
        return send_waiting(text, sink);
    }
    match send_full(sink, text) {
        Ok(()) => Ok(()),
        Err(refusal) => {
            text.clear();
            Err(refusal)
        }
    }
}

/// Writes what waits and behind it the line that names this status, and gives the status where all of it is written;
/// else `WriteFault` or `OutOfMemory`, and the sink has a front of it. What waits is written before the line takes
/// memory.
pub fn send_fault<K: Sink>(
    alloc: Global,
    text: &mut Vec<u8>,
    sink: &mut K,
    status: Status,
) -> Status
    ensures { Wrote status (text.old.items ++ fault_line status) result (K.held sink.old) (K.held sink.new)
        (K.faults sink.old) (K.faults sink.new) }
{
    match send_waiting(text, sink) {
        Ok(()) => write_fault(alloc, sink, text, status),
        Err(EdgeRefusal::Failed) => Status::WriteFault,
        Err(EdgeRefusal::OutOfMemory) => Status::OutOfMemory,
    }
}
