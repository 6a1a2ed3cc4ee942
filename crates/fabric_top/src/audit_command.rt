ghost use Rattle.fabric_top.specs.Auditing.{Audits};

use edge_io::{Sink, Source};
use fabric_status::Status;
use std::alloc::Global;
use transcript_audit::audit;

/// Audits the transcript of the source.
pub fn audit_source<S: Source, K: Sink>(alloc: Global, source: &mut S, sink: &mut K) -> Status
    ensures { Audits result (S.left source.old) (S.left source.new) (S.faults source.old) (S.faults source.new)
        (K.held sink.old) (K.held sink.new) (K.faults sink.old) (K.faults sink.new) }
{
    audit(alloc, source, sink)
}
