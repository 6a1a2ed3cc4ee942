ghost use Rattle.std.specs.Prelude.{◌≡◌, ℕ, List, [], Some, IsTrue};
ghost use Rattle.edge_io.specs.Edge.{HasRisen};
ghost use Rattle.schedule_replay.specs.Statuses.{may_end_replay};
ghost use Rattle.schedule_rules.specs.Endings.{EndsSo};
ghost use Rattle.schedule_rules.specs.Schedule.{judge};
ghost use Rattle.schedule_rules.specs.Telling.{IsTold, lines_judged};
ghost use Rattle.schedule_rules.specs.Tellings.{trace_telling};

use crate::clocks::push_clocks;
use crate::run::run_schedule;
use crate::run_observer::RunObserver;
use crate::step_report::push_told;
use edge_io::{Sink, Source};
use fabric_status::Status;
use fabric_terms::OutOfMemory;
use ring_world::{Acted, World};
use std::alloc::Global;

/// Tells the clocks and the reports of each event. It keeps nothing.
#[derive(Drop)]
struct TranscriptObserver {}

impl RunObserver for TranscriptObserver {
    ghost telling = { trace_telling };

    ghost knows = { λ _ c h. Unit {0} };

    fn heading(&self) -> &[u8] {
        b"transcript 0\n"
    }

    fn tell(
        &mut self,
        world: &World,
        line: u64,
        acted: &Option<Acted>,
        text: &mut Vec<u8>,
    ) -> Result<(), OutOfMemory> {
        push_clocks(text, line, world.clocks())?;
        push_told(text, acted)
    }

    fn end(&self, _world: &World, _text: &mut Vec<u8>) -> Result<(), OutOfMemory> {
        Ok(())
    }
}

/// Reads a schedule to its end and writes its transcript: of each event the clocks behind it and what was told. It ends
/// as `replay` does, and its text is this one in place of the report.
pub fn trace<S: Source, K: Sink>(alloc: Global, source: &mut S, sink: &mut K) -> Status
    ensures statuses { IsTrue (may_end_replay result) }
    ensures read { result ≡ Status.Ok → (bytes : List ℕ) → S.left source.old ≡ Some bytes →
        S.left source.new ≡ Some [] }
    ensures written { (bytes : List ℕ) → S.left source.old ≡ Some bytes →
        EndsSo (IsTold trace_telling) (lines_judged trace_telling) result (judge bytes) (S.left source.new)
        (HasRisen (S.faults source.old) (S.faults source.new)) (K.held sink.old) (K.held sink.new) }
    ensures read_fault { result ≡ Status.ReadFault → HasRisen (S.faults source.old) (S.faults source.new) }
    ensures write_fault { result ≡ Status.WriteFault → HasRisen (K.faults sink.old) (K.faults sink.new) }
{
    run_schedule(alloc, &mut TranscriptObserver {}, source, sink)
}
