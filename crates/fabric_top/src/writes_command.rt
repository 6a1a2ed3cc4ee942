ghost use Rattle.fabric_top.specs.Writing.{WritesLogs};

use edge_io::{Sink, Source};
use fabric_status::Status;
use schedule_writes::writes;
use std::alloc::Global;

/// Writes the committed logs of the schedule of the source.
pub fn writes_source<S: Source, K: Sink>(alloc: Global, source: &mut S, sink: &mut K) -> Status
    ensures { WritesLogs result (S.left source.old) (S.left source.new) (S.faults source.old) (S.faults source.new)
        (K.held sink.old) (K.held sink.new) (K.faults sink.old) (K.faults sink.new) }
{
    writes(alloc, source, sink)
}
