ghost use Rattle.std.specs.Prelude.{◌≡◌, ℕ, ◌+◌, ◌<◌, ◌≤◌, ◌^◌, [], IfOk, OnOk, OnErr};
ghost use Rattle.fabric_terms.specs.Places.{With, place_after};
ghost use Rattle.point_places.specs.Spots.{place_at};
ghost use Rattle.point_places.specs.Lines.{held_by, IsAppended};

use crate::lines::text_of;
use crate::moves::{moving, settled};
use crate::place::Place;
use crate::segments::Segment;
use crate::unheld::Holder;
use fabric_terms::{OutOfMemory, Report};
use ring_points::Who;
use std::alloc::Global;
use std::marker::Model;

/// Where each point of the ring is. Contracts see it as the record `Spots`.
#[derive(Drop)]
pub struct Places {
    alloc: Global,
    /// The ring: rising from point 0, each up to the next, and no two neighbours with the same place.
    segments: Vec<Segment>,
    /// The moves that the segments do not have yet, in their order.
    moves: Vec<(Who, Report)>,
}

impl Model for Places {
    ghost use Rattle.std.specs.Prelude.{◌-◌, IsTrue, reverse, vec_len, vec_capacity};
    ghost use Rattle.point_places.specs.Spots.{Spots};
    ghost use Rattle.point_places.specs.Segments.{is_cut};

    ghost Value = { Spots };

    ghost view = { λ a. record {
      segments = a.segments.items;
      moves = reverse a.moves.items;
      room = vec_capacity a.moves - vec_len a.moves;
    } };

    ghost invariant = { λ a. IsTrue (is_cut a.segments.items) };
}

impl Places {
    /// Every point is with the first instance. It is an error where memory is short.
    pub fn new(alloc: Global, first: Who) -> Result<Places, OutOfMemory>
        ensures { IfOk result (λ r. (p : ℕ) → place_at r p ≡ With first) }
    {
        let mut segments = Vec::new(alloc);
        segments.push(Segment {
            lo: 0,
            place: Place::With(first),
        })?;
        Ok(Places {
            alloc,
            segments,
            moves: Vec::new(alloc),
        })
    }

    // The segments have all moves now. It is an error where memory is short, and then they have those of before.
    fn settle(&mut self) -> Result<(), OutOfMemory>
        ensures places { (p : ℕ) → p < 2 ^ 64 → place_at self.new p ≡ place_at self.old p }
        ensures ok { OnOk result (self.new.moves ≡ []) }
        ensures room { self.old.room ≤ self.new.room }
        ensures refused { OnErr result (self.new ≡ self.old) }
    {
        self.segments = settled(self.alloc, &self.segments, &self.moves)?;
        self.moves.clear();
        Ok(())
    }

    /// Makes room for so many moves more, at most 1,000. It is an error where memory is short, and then the room is no
    /// less than before. No point is moved.
    pub fn reserve(&mut self, count: usize) -> Result<(), OutOfMemory>
        requires { count ≤ 1000 }
        ensures places { (p : ℕ) → p < 2 ^ 64 → place_at self.new p ≡ place_at self.old p }
        ensures room { OnOk result (count ≤ self.new.room) }
        ensures refused { OnErr result (self.old.room ≤ self.new.room) }
    {
        if !self.moves.is_empty() {
            // Where memory is short, the moves wait.
            let _ = self.settle();
        }
        self.moves.reserve(count)?;
        Ok(())
    }

    /// What an instance reports moves points: to a flight, to who took them, or back. Other reports move none. There is
    /// room for it.
    pub fn moved(&mut self, who: Who, report: &Report)
        requires { 0 < self.old.room }
        ensures places { (p : ℕ) → p < 2 ^ 64 →
            place_at self.new p ≡ place_after who report.now p (place_at self.old p) }
        ensures room { self.old.room ≤ self.new.room + 1 }
    {
        if let Some(report) = moving(report) {
            self.moves.push_reserved((who, report));
        }
    }

    /// Appends the lines of the points that are with an instance which does not hold them, rising by node and
    /// instance, and those of the flights, rising by giver and number. The holders are the running instances that
    /// hold something, each with what it holds. It is an error where memory is short, and then nothing is appended.
    pub fn push_lines(&self, holders: &[Holder], into: &mut Vec<u8>) -> Result<(), OutOfMemory>
        ensures ok { OnOk result (IsAppended (place_at self.now) (held_by holders.now) into.old.items into.new.items) }
        ensures refused { OnErr result (into.new.items ≡ into.old.items) }
    {
        let segments = settled(self.alloc, &self.segments, &self.moves)?;
        let text = text_of(self.alloc, &segments, holders)?;
        into.extend_from_slice(&text)?;
        Ok(())
    }
}
