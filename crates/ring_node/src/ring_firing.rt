ghost use Rattle.std.specs.Prelude.{◌≡◌, ◌+◌, ◌<◌, ◌≤◌, ◌*◌, IsTrue, List, OnErr, OnOk, false, length, true};
ghost use Rattle.fabric_terms.specs.declared.report.Report.{Report};
ghost use Rattle.join_phases.specs.Phases.{is_routing};
ghost use Rattle.ring_node.specs.Nodes.{IsPatched, by, step};
ghost use Rattle.ring_rules.specs.Deeds.{has_numbers};
ghost use Rattle.ring_rules.specs.Firing.{freeze_given, give_frozen, place_sought, search_by, slot_fired, slots_fired};
ghost use Rattle.ring_rules.specs.Firing.{timer_fired};
ghost use Rattle.ring_rules.specs.Slots.{is_free, slot_at};
ghost use Rattle.ring_node.specs.Limits.{most_fired_messages, most_fired_reports, most_greetings};
ghost use Rattle.ring_node.specs.Limits.{most_slot_messages, most_slot_reports};
ghost use Rattle.ring_rules.specs.Rings.{slot_count};

use crate::acked::all_acked;
use crate::cause::Cause;
use crate::leave::whole_row;
use crate::node::{RingNode, announced};
use crate::reports::Reports;
use crate::tokens::Spent;
use fabric_terms::{Outbox, Report};
use join_phases::Phase;
use link_core::SLOTS;
use ring_points::{MAX_READING, MAX_RING_REPORTS, OUTBOX_LIMIT};
use token_core::TokenRefusal;

impl RingNode {
    /// Whether the slot is free.
    fn is_free(&self, i: usize) -> bool
        requires { i < SLOTS }
        ensures free { result ≡ is_free (slot_at i self.now.ring.slots) }
        ensures numbers { IsTrue (has_numbers self.now.ring) }
    {
        self.links.slots()[i].is_none()
    }

    /// What a firing does at this slot: nothing, where it is free.
    #[tactic(auto, unfolding(ring_rules::specs::Firing::slot_fired))]
    pub(crate) fn fire_slot(&mut self, i: usize, now: u64, out: &mut Outbox, told: &mut Reports)
        requires slot { i < SLOTS }
        requires now { now ≤ MAX_READING }
        requires room { length out.old + most_slot_messages ≤ OUTBOX_LIMIT }
        requires place { length told.old + most_slot_reports ≤ MAX_RING_REPORTS }
        ensures row { step self.new out.new told.new ≡ by (λ c. slot_fired c now i) (step self.old out.old told.old) }
        ensures few { length told.new ≤ length told.old + most_slot_reports }
        ensures short { length out.new ≤ length out.old + most_slot_messages }
    {
        if self.is_free(i) {
            return;
        }
        whole_row!(
            self,
            out,
            told,
            {
                let announce = announced(&self.token, &self.phase);
                let notes = self.links.fire(i, now, &announce, out);
                let cause = Cause::none();
                self.notes(&cause, notes.as_slice(), out, told)
            }
        )
    }

    /// Each slot in its order, until the node leaves.
    #[tactic(auto, unfolding(ring_rules::specs::Firing::slots_fired))]
    fn fire_slots(&mut self, now: u64, out: &mut Outbox, told: &mut Reports)
        requires now { now ≤ MAX_READING }
        requires room { length out.old ≡ 0 }
        requires place { length told.old ≡ 0 }
        ensures row { step self.new out.new told.new ≡ by (λ c. slots_fired c now slot_count)
            (step self.old out.old told.old) }
        ensures few { length told.new ≤ slot_count * most_slot_reports }
        ensures short { length out.new ≤ slot_count * most_slot_messages }
    {
        for i in 0..SLOTS {
            // A slot before may have made the node leave, and whoever has left does nothing.
            if !self.is_left() {
                self.fire_slot(i, now, out, told);
            }
        }
    }

    /// What is frozen is given away, where every slot that guards has acknowledged it.
    fn give_frozen(&mut self, out: &mut Outbox, told: &mut Reports) -> Result<(), Spent>
        requires room { length out.old < OUTBOX_LIMIT }
        requires place { length told.old < MAX_RING_REPORTS }
        ensures ok { OnOk result (step self.new out.new told.new ≡ by (λ c w. give_frozen w.ring.token.freeze w)
            (step self.old out.old told.old)) }
        ensures err { OnErr result (has_numbers
            (give_frozen self.old.ring.token.freeze (step self.old out.old told.old).work).ring ≡ false) }
        ensures kept { OnErr result (step self.new out.new told.new ≡ step self.old out.old told.old) }
        ensures few { length told.new ≤ length told.old + 1 }
        ensures short { length out.new ≤ length out.old + 1 }
    {
        let (Some(i), Some(version)) = (self.token.frozen_for(), self.token.frozen_since()) else {
            return Ok(());
        };
        // Whoever has not acknowledged still counts the frozen part as this node's, and would take it over with the
        // rest.
        if !all_acked(self.links.slots(), version) {
            return Ok(());
        }
        let Some(peer) = self.peer(i) else {
            return Ok(());
        };
        let Phase::Routing(routing) = &self.phase else {
            return Ok(());
        };
        match self.token.give(routing, version) {
            Ok(flight) => {
                told.push(Report::Gave(peer, flight.number, flight.part.copy()));
                self.links.put_flight(i, &flight, out);
                Ok(())
            }
            Err(TokenRefusal::Counters) => Err(Spent),
            Err(_) => Ok(()),
        }
    }

    /// The row of a freeze that is ready.
    #[tactic(auto, unfolding(ring_rules::specs::Firing::freeze_given))]
    fn fire_freeze(&mut self, out: &mut Outbox, told: &mut Reports)
        requires room { length out.old < OUTBOX_LIMIT }
        requires place { length told.old + 1 < MAX_RING_REPORTS }
        ensures row { step self.new out.new told.new ≡ by (λ c. freeze_given) (step self.old out.old told.old) }
        ensures few { length told.new ≤ length told.old + 1 }
        ensures short { length out.new ≤ length out.old + 1 }
    {
        whole_row!(self, out, told, self.give_frozen(out, told))
    }

    /// Greets the near nodes, as the command to link does; a refusal is silent.
    fn greet_near(&mut self, now: u64, out: &mut Outbox) -> Result<(), Spent>
        requires now { now ≤ MAX_READING }
        requires room { length out.old + most_greetings ≤ OUTBOX_LIMIT }
        ensures ok { OnOk result ((told : List Report) →
            step self.new out.new told ≡ by (λ c w. search_by c now w true) (step self.old out.old told)) }
        ensures err { OnErr result ((told : List Report) →
            has_numbers (search_by self.old.settings now (step self.old out.old told).work true).ring ≡ false) }
        ensures kept { OnErr result ((told : List Report) →
            IsPatched (step self.old out.old told) (step self.new out.new told)) }
        ensures short { length out.new ≤ length out.old + most_greetings }
    {
        let near = self.routes.near(self.near, self.links.accused());
        for node in near.as_slice() {
            match self.greet_plainly(*node, now, out) {
                Ok(()) => {}
                Err(spent) => return Err(spent),
            }
        }
        Ok(())
    }

    /// The search for a place, or for near nodes.
    fn search(&mut self, now: u64, out: &mut Outbox) -> Result<(), Spent>
        requires now { now ≤ MAX_READING }
        requires room { length out.old + most_greetings ≤ OUTBOX_LIMIT }
        ensures ok { OnOk result ((told : List Report) →
            step self.new out.new told ≡ by (λ c w. search_by c now w (is_routing w.ring.phase))
            (step self.old out.old told)) }
        ensures err { OnErr result ((told : List Report) →
            has_numbers (search_by self.old.settings now (step self.old out.old told).work
            (is_routing self.old.ring.phase)).ring ≡ false) }
        ensures kept { OnErr result ((told : List Report) →
            IsPatched (step self.old out.old told) (step self.new out.new told)) }
        ensures short { length out.new ≤ length out.old + most_greetings }
    {
        if self.is_routing() {
            return if self.near == 0 {
                Ok(())
            } else {
                self.greet_near(now, out)
            };
        }
        if let Some(member) = self.target {
            self.seek_place(member, out);
        }
        Ok(())
    }

    /// The row of the search.
    #[tactic(auto, unfolding(ring_rules::specs::Firing::place_sought))]
    fn fire_search(&mut self, now: u64, out: &mut Outbox, told: &mut Reports)
        requires now { now ≤ MAX_READING }
        requires room { length out.old + most_greetings ≤ OUTBOX_LIMIT }
        requires place { length told.old < MAX_RING_REPORTS }
        ensures row { step self.new out.new told.new ≡ by (λ c. place_sought c now) (step self.old out.old told.old) }
        ensures few { length told.new ≤ length told.old + 1 }
        ensures short { length out.new ≤ length out.old + most_greetings }
    {
        whole_row!(self, out, told, self.search(now, out))
    }

    /// A firing: each slot in its order, then a freeze that is ready, then the search for a place or for near nodes.
    #[tactic(auto, unfolding(ring_rules::specs::Firing::timer_fired))]
    pub(crate) fn fire(&mut self, now: u64, out: &mut Outbox, told: &mut Reports)
        requires now { now ≤ MAX_READING }
        requires room { length out.old ≡ 0 }
        requires place { length told.old ≡ 0 }
        ensures row { step self.new out.new told.new ≡ by (λ c. timer_fired c now) (step self.old out.old told.old) }
        ensures few { length told.new ≤ most_fired_reports }
        ensures short { length out.new ≤ most_fired_messages }
    {
        self.fire_slots(now, out, told);
        if !self.is_left() {
            self.fire_freeze(out, told);
        }
        if !self.is_left() {
            self.fire_search(now, out, told);
        }
    }
}
