ghost use Rattle.std.specs.Prelude.{◌≡◌, ◌<◌, ◌≤◌, ◌+◌, IfSome, false, length};
ghost use Rattle.ring_rules.specs.Slots.{slot_at};
ghost use Rattle.link_core.specs.Deadlines.{some_ended};
ghost use Rattle.link_core.specs.Firing.{peer_accused, slot_fired};
ghost use Rattle.link_core.specs.Links.{did, did_after};
ghost use Rattle.link_core.specs.Outcomes.{SlotFired};
ghost use Rattle.link_core.specs.Limits.{most_row_messages};

use crate::announce::{Announce, Announced};
use crate::deadlines::change;
use crate::firing::{Firing, accuse, is_over, spoken};
use crate::links::{Links16, SLOTS};
use crate::notes::{LinkNote, LinkNotes, no_notes, one_note, two_notes};
use fabric_terms::{Outbox, Why};
use ring_points::{MAX_ARBITRATORS, MAX_READING, OUTBOX_LIMIT};

impl Links16 {
    /// The lease of some slot that guards has ended. Where none has, no slot is due to accuse.
    fn some_ended(&self, now: u64) -> bool
        ensures { result ≡ some_ended now self.now.slots }
    {
        match self.deadlines.first() {
            Some(end) => end <= now,
            None => false,
        }
    }

    /// The peer of the slot is accused, where the list of the accused is not full.
    fn accuse(&mut self, i: usize, out: &mut Outbox) -> LinkNotes
        requires inside { i < SLOTS }
        requires room { length out.old + most_row_messages ≤ OUTBOX_LIMIT }
        ensures { IfSome (slot_at i self.old.slots)
            (λ l. did self.new out.new result ≡ did_after out.old (peer_accused i l self.old)) }
    {
        if self.accused.is_full() {
            return one_note(LinkNote::Leave(Why::AccusedFull));
        }
        let (me, arbitrators, rounds) = (self.me, self.arbitrators, self.rounds);
        let Some(peer) = change!(self, i, slot => accuse(slot, me, arbitrators, rounds, out)) else {
            return no_notes();
        };
        self.accused.push(peer);
        two_notes(LinkNote::Undo(i), LinkNote::AccusedNow(peer))
    }

    /// What a firing does at this slot: what it says again, whom it accuses, what ends. A slot that is free does
    /// nothing.
    pub fn due(&mut self, slot: usize, now: u64, announce: &Announce, out: &mut Outbox) -> LinkNotes
        requires slot { slot < SLOTS }
        requires now { now ≤ MAX_READING }
        requires room { length out.old + most_row_messages ≤ OUTBOX_LIMIT }
        ensures { SlotFired now slot announce.now self.old out.old (did self.new out.new result) }
    {
        self.fire(slot, now, &Announced::of(announce), out)
    }

    /// As `due`, with the ranges where they lie.
    pub fn fire(
        &mut self,
        slot: usize,
        now: u64,
        announce: &Announced,
        out: &mut Outbox,
    ) -> LinkNotes
        requires slot { slot < SLOTS }
        requires now { now ≤ MAX_READING }
        requires room { length out.old + most_row_messages ≤ OUTBOX_LIMIT }
        ensures { SlotFired now slot announce.now self.old out.old (did self.new out.new result) }
    {
        self.fired(slot, now, announce, out)
    }

    fn fired(&mut self, slot: usize, now: u64, announce: &Announced, out: &mut Outbox) -> LinkNotes
        requires slot { slot < SLOTS }
        requires now { now ≤ MAX_READING }
        requires room { length out.old + most_row_messages ≤ OUTBOX_LIMIT }
        ensures did { did self.new out.new result ≡ did_after out.old (slot_fired now announce.now slot self.old) }
        ensures arbitrators { self.old.arbitrators ≤ MAX_ARBITRATORS }
    {
        let ended = self.some_ended(now);
        let Some(link) = &self.slots[slot] else {
            return no_notes();
        };
        if ended && is_over(link, now) {
            return self.accuse(slot, out);
        }
        let firing = Firing {
            reading: now,
            answer: self.answer,
            arbitrators: self.arbitrators,
            rounds: self.rounds,
        };
        change!(self, slot, place => spoken(slot, place, &firing, announce, out))
    }
}
