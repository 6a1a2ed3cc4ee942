// What an arbitrator's answer leaves to do.
ghost use Rattle.std.specs.Prelude.{◌≡◌, ◌<◌, ◌∷◌, [], IfOk, vec_capacity};
ghost use Rattle.std.specs.Option.{option_to_list};
ghost use Rattle.turn_members.specs.Answers.{answer_frames, answer_records};
ghost use Rattle.turn_members.specs.Rooms.{IsRoom};

use arbiter_core::Answer;
use fabric_terms::{Message, OutOfMemory, Record};
use node_core::{Batch, Outcome};
use ring_points::Who;
use std::alloc::Global;

/// Room for a record and a frame.
#[derive(Drop)]
pub(crate) struct Room {
    records: Vec<Record>,
    frames: Vec<Message>,
}

/// Puts an item into an empty list that has room for it.
fn put<T: Drop>(items: &mut Vec<T>, item: T)
    requires empty { items.old.items ≡ [] }
    requires room { 0 < vec_capacity items.old }
    ensures { items.new.items ≡ item ∷ [] }
{
    match items.push(item) {
        Ok(()) => {}
        Err(_) => unreachable!(),
    }
}

fn put_kept(records: &mut Vec<Record>, kept: Option<Record>)
    requires empty { records.old.items ≡ [] }
    requires room { 0 < vec_capacity records.old }
    ensures { records.new.items ≡ option_to_list kept }
{
    match kept {
        None => {}
        Some(record) => put(records, record),
    }
}

impl Room {
    /// Makes the room, before the arbitrator is asked: whatever it answers can then be taken.
    pub(crate) fn new(alloc: Global) -> Result<Room, OutOfMemory>
        ensures { IfOk result (λ room. IsRoom room) }
    {
        let records = Vec::with_capacity(alloc, 1)?;
        let frames = Vec::with_capacity(alloc, 1)?;
        Ok(Room { records, frames })
    }

    /// What this answer of the arbitrator leaves to do.
    pub(crate) fn taking(self, alloc: Global, from: Who, answer: Answer) -> Outcome
        requires { IsRoom self }
        ensures records { result.records ≡ answer_records answer }
        ensures frames { result.frames ≡ answer_frames from answer }
        ensures reports { result.reports ≡ [] }
    {
        let Room {
            mut records,
            mut frames,
        } = self;
        if let Answer::Reply { kept, to, body } = answer {
            put_kept(&mut records, kept);
            put(&mut frames, Message { from, to, body });
        }
        Outcome {
            records: Batch::new(records),
            frames: Batch::new(frames),
            reports: Batch::new(Vec::new(alloc)),
        }
    }
}
