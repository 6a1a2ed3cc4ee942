ghost use Rattle.fabric_top.specs.Using.{EndsUsage};

use edge_io::{EdgeRefusal, Sink, write_all};
use fabric_status::Status;

/// Writes that the words are none of the forms.
pub fn usage<K: Sink>(sink: &mut K) -> Status
    ensures { EndsUsage result (K.held sink.old) (K.held sink.new) (K.faults sink.old) (K.faults sink.new) }
{
    match write_all(sink, b"fault usage\n") {
        Ok(()) => Status::Usage,
        Err(EdgeRefusal::Failed) => Status::Usage,
        Err(EdgeRefusal::OutOfMemory) => Status::OutOfMemory,
    }
}
