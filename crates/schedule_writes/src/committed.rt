ghost use Rattle.std.specs.Prelude.{◌≡◌, ℕ, List, [], Some, None, IsTrue};
ghost use Rattle.edge_io.specs.Edge.{HasRisen};
ghost use Rattle.schedule_replay.specs.Statuses.{may_end_replay};
ghost use Rattle.schedule_rules.specs.Replays.{IsDone};
ghost use Rattle.schedule_rules.specs.Schedule.{judge};
ghost use Rattle.write_safety.specs.Fed.{HasCommitted};
ghost use Rattle.schedule_writes.specs.Writes.{Writes, writes_telling};

use crate::feed::feed;
use edge_io::{Sink, Source};
use fabric_status::Status;
use fabric_terms::OutOfMemory;
use ring_world::{Acted, World};
use schedule_replay::{RunObserver, push_end, run_schedule};
use std::alloc::Global;
use write_safety::WriteBook;

/// Tells nothing of an event, and last the committed logs of all. It keeps them in a book.
#[derive(Drop)]
struct Committed {
    book: WriteBook,
}

impl RunObserver for Committed {
    ghost telling = { writes_telling };

    ghost knows = { λ a c h. HasCommitted c h a.book };

    fn heading(&self) -> &[u8] {
        b""
    }

    fn tell(
        &mut self,
        world: &World,
        _line: u64,
        acted: &Option<Acted>,
        _text: &mut Vec<u8>,
    ) -> Result<(), OutOfMemory> {
        match acted {
            None => Ok(()),
            Some(acted) => feed(&mut self.book, world, acted),
        }
    }

    fn end(&self, world: &World, text: &mut Vec<u8>) -> Result<(), OutOfMemory> {
        self.book.print(text)?;
        push_end(text, world.counts())
    }
}

/// Reads a schedule to its end and writes the committed log of each partition under each data loss number, a line for
/// each entry, rising by partition, data loss number and number, and then the end; or the fault of the refused line
/// alone; or alone that the source failed. `ReadFault` and `WriteFault` come only where that device's count of faults
/// rose; at `OutOfMemory` and `WriteFault` the sink has a front of what would have been written. An entry is kept once,
/// however many reports are about it.
pub fn writes<S: Source, K: Sink>(alloc: Global, source: &mut S, sink: &mut K) -> Status
    ensures statuses { IsTrue (may_end_replay result) }
    ensures read { result ≡ Status.Ok → (bytes : List ℕ) → S.left source.old ≡ Some bytes →
        S.left source.new ≡ Some [] }
    ensures written { (bytes : List ℕ) → S.left source.old ≡ Some bytes →
        Writes result (judge bytes) (S.left source.new) (HasRisen (S.faults source.old) (S.faults source.new))
        (K.held sink.old) (K.held sink.new) }
    ensures read_fault { result ≡ Status.ReadFault → HasRisen (S.faults source.old) (S.faults source.new) }
    ensures write_fault { result ≡ Status.WriteFault → HasRisen (K.faults sink.old) (K.faults sink.new) }
    ensures complete { (bytes : List ℕ) → S.left source.old ≡ Some bytes → (judge bytes).refused ≡ None →
        ¬ HasRisen (S.faults source.old) (S.faults source.new) → ¬ HasRisen (K.faults sink.old) (K.faults sink.new) →
        IsDone result }
{
    let mut teller = Committed {
        book: WriteBook::new(alloc),
    };
    run_schedule(alloc, &mut teller, source, sink)
}
