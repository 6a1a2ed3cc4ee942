ghost use Rattle.fabric_top.specs.Tracing.{Traces};

use edge_io::{Sink, Source};
use fabric_status::Status;
use schedule_replay::trace;
use std::alloc::Global;

/// Writes the transcript of the schedule of the source.
pub fn trace_source<S: Source, K: Sink>(alloc: Global, source: &mut S, sink: &mut K) -> Status
    ensures { Traces result (S.left source.old) (S.left source.new) (S.faults source.old) (S.faults source.new)
        (K.held sink.old) (K.held sink.new) (K.faults sink.old) (K.faults sink.new) }
{
    trace(alloc, source, sink)
}
