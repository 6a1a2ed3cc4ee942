ghost use Rattle.std.specs.Prelude.{◌≡◌, ℕ, List, [], Some, IsTrue};
ghost use Rattle.edge_io.specs.Edge.{HasRisen};
ghost use Rattle.schedule_replay.specs.Statuses.{may_end_replay};
ghost use Rattle.schedule_rules.specs.Schedule.{judge};
ghost use Rattle.schedule_rules.specs.Replays.{Writes};
ghost use Rattle.schedule_rules.specs.Tellings.{replay_telling};

use crate::ending::push_ending;
use crate::run::run_schedule;
use crate::run_observer::RunObserver;
use crate::step_report::push_told;
use edge_io::{Sink, Source};
use fabric_status::Status;
use fabric_terms::OutOfMemory;
use ring_world::{Acted, World};
use std::alloc::Global;

/// Tells the reports of each event, and last the places and the end. It keeps nothing.
#[derive(Drop)]
struct ReportObserver {}

impl RunObserver for ReportObserver {
    ghost telling = { replay_telling };

    ghost knows = { λ _ c h. Unit {0} };

    fn heading(&self) -> &[u8] {
        b""
    }

    fn tell(
        &mut self,
        _world: &World,
        _line: u64,
        acted: &Option<Acted>,
        text: &mut Vec<u8>,
    ) -> Result<(), OutOfMemory> {
        push_told(text, acted)
    }

    fn end(&self, world: &World, text: &mut Vec<u8>) -> Result<(), OutOfMemory> {
        push_ending(text, world)
    }
}

/// Reads a schedule to its end and writes its report: the lines of its run, the places, and the end; or the lines
/// before the refused line, and its fault; or the lines of all whole lines before a failing read, and that the source
/// failed. `ReadFault` and `WriteFault` come only where that device's count of faults rose; at `OutOfMemory` and
/// `WriteFault` the sink has a front of what would have been written.
pub fn replay<S: Source, K: Sink>(alloc: Global, source: &mut S, sink: &mut K) -> Status
    ensures statuses { IsTrue (may_end_replay result) }
    ensures read { result ≡ Status.Ok → (bytes : List ℕ) → S.left source.old ≡ Some bytes →
        S.left source.new ≡ Some [] }
    ensures written { (bytes : List ℕ) → S.left source.old ≡ Some bytes →
        Writes result (judge bytes) (S.left source.new) (HasRisen (S.faults source.old) (S.faults source.new))
        (K.held sink.old) (K.held sink.new) }
    ensures read_fault { result ≡ Status.ReadFault → HasRisen (S.faults source.old) (S.faults source.new) }
    ensures write_fault { result ≡ Status.WriteFault → HasRisen (K.faults sink.old) (K.faults sink.new) }
{
    run_schedule(alloc, &mut ReportObserver {}, source, sink)
}
