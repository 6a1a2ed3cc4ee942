ghost use Rattle.fabric_status.specs.Writes.{Wrote};

use crate::status::Status;
use edge_io::{EdgeRefusal, Sink, write_all};

/// Writes the last text of a command, and gives the status where all of it is written; else `WriteFault` or
/// `OutOfMemory`, and the sink has a front of it.
pub fn write_last<K: Sink>(sink: &mut K, text: &[u8], status: Status) -> Status
    ensures { Wrote status text.now result (K.held sink.old) (K.held sink.new) (K.faults sink.old) (K.faults sink.new) }
{
    match write_all(sink, text) {
        Ok(()) => status,
        Err(EdgeRefusal::Failed) => Status::WriteFault,
        Err(EdgeRefusal::OutOfMemory) => Status::OutOfMemory,
    }
}
