ghost use Rattle.fabric_top.specs.Replaying.{Replays};

use edge_io::{Sink, Source};
use fabric_status::Status;
use schedule_replay::replay;
use std::alloc::Global;

/// Replays the schedule of the source.
pub fn replay_source<S: Source, K: Sink>(alloc: Global, source: &mut S, sink: &mut K) -> Status
    ensures { Replays result (S.left source.old) (S.left source.new) (S.faults source.old) (S.faults source.new)
        (K.held sink.old) (K.held sink.new) (K.faults sink.old) (K.faults sink.new) }
{
    replay(alloc, source, sink)
}
