ghost use Rattle.std.specs.Prelude.{◌≡◌, ◌+◌, ◌<◌, ◌≤◌, List, IfSome, OnErr, OnOk, OnSome, [], length, nat_lt};
ghost use Rattle.std.specs.Prelude.{option_map, true};
ghost use Rattle.ring_rules.specs.Deeds.{undone};
ghost use Rattle.token_core.specs.Tokens.{last_number};
ghost use Rattle.ring_rules.specs.Links.{has_flight};
ghost use Rattle.fabric_terms.specs.declared.message.Body.{Body};
ghost use Rattle.join_phases.specs.Phases.{is_routing};
ghost use Rattle.link_core.specs.Calls.{call_in, slot_closed};
ghost use Rattle.link_core.specs.Links.{did, did_after};
ghost use Rattle.link_core.specs.Ties.{all_noted, arrived_at, arrived_in, noted, returned_in, ripe_in};
ghost use Rattle.link_core.specs.Ties.{wanted_at};
ghost use Rattle.ring_node.specs.Grants.{part_for};
ghost use Rattle.ring_node.specs.Nodes.{IsBroken, IsBrokenOff, Rings, RingsBroken, by, links_of, step, with_links};
ghost use Rattle.ring_node.specs.Nodes.{with_token};
ghost use Rattle.ring_points.specs.declared.who.Who.{Who};
ghost use Rattle.ring_rules.specs.Slots.{slot_at};

use crate::cause::{Brought, Cause};
use crate::near::nearer_part;
use crate::node::RingNode;
use crate::reports::Reports;
use crate::tokens::Spent;
use fabric_terms::{Outbox, Report};
use link_core::{LinkNote, SLOTS};
use ring_points::{MAX_RING_REPORTS, OUTBOX_LIMIT, RangeSet, Who};
use token_core::TokenRefusal;

impl RingNode {
    /// The peer of the slot.
    pub(crate) fn peer(&self, i: usize) -> Option<Who>
        ensures peer { result ≡ option_map (λ l. l.peer) (slot_at i self.now.ring.slots) }
        ensures inside { OnSome result (i < SLOTS) }
    {
        match self.links.slots().get(i) {
            Some(Some(link)) => Some(link.peer),
            _ => None,
        }
    }

    pub(crate) fn has_flight(&self, i: usize) -> bool
        requires { i < SLOTS }
        ensures { IfSome (slot_at i self.now.ring.slots) (λ l. result ≡ has_flight l) }
    {
        match &self.links.slots()[i] {
            Some(link) => link.flight.is_some(),
            None => false,
        }
    }

    /// The nearer part, where the node routes, no flight of the slot stands and it fits.
    fn part_for(&self, i: usize) -> Option<RangeSet>
        ensures part { result ≡ part_for self.now.ring (slot_at i self.now.ring.slots) }
        ensures routing { OnSome result (is_routing self.now.ring.phase ≡ true) }
    {
        let peer = self.peer(i)?;
        if self.has_flight(i) || !self.is_routing() {
            return None;
        }
        let (mine, other) = (
            self.point_of(self.links.me().actor),
            self.point_of(peer.actor),
        );
        nearer_part(self.token.ranges(), mine, other).ok()
    }

    /// The peer wants ranges.
    fn grant(&mut self, i: usize) -> Result<(), Spent>
        ensures ok { OnOk result (Rings (λ c w. wanted_at i (slot_at i w.ring.slots) w) self.old self.new) }
        ensures err { OnErr result (RingsBroken (λ c w. wanted_at i (slot_at i w.ring.slots) w) self.old self.new) }
    {
        let Some(part) = self.part_for(i) else {
            return Ok(());
        };
        match self.freeze(&part, i) {
            Ok(()) => Ok(()),
            Err(TokenRefusal::Counters) => Err(Spent),
            Err(_) => Ok(()),
        }
    }

    /// A flight has arrived.
    fn arrive(&mut self, i: usize, flight: &Brought, told: &mut Reports) -> Result<(), Spent>
        requires { length told.old < MAX_RING_REPORTS }
        ensures ok { OnOk result ((sent : List (Who × Body)) →
            step self.new sent told.new ≡ by (λ c w. arrived_at i flight.now (slot_at i w.ring.slots) w)
            (step self.old sent told.old)) }
        ensures err { OnErr result ((sent : List (Who × Body)) →
            IsBroken (λ c w. arrived_at i flight.now (slot_at i w.ring.slots) w) (step self.old sent told.old)
            (step self.new sent told.new)) }
        ensures few { length told.new ≤ length told.old + 1 }
    {
        let Some(peer) = self.peer(i) else {
            return Ok(());
        };
        match self.token.take(flight.part) {
            Ok(()) => {
                self.links.took(i, flight.number);
                self.hold();
                told.push(Report::Took(peer, flight.number, flight.part.copy()));
                Ok(())
            }
            Err(TokenRefusal::Counters) => Err(Spent),
            Err(_) => Ok(()),
        }
    }

    /// A freeze for the slot is undone, and the slot ends.
    fn end(&mut self, i: usize, gone: bool, out: &mut Outbox) -> Result<(), Spent>
        requires inside { i < SLOTS }
        requires room { length out.old < OUTBOX_LIMIT }
        ensures links { OnOk result (did (links_of self.new) out.new [] ≡ did_after out.old
            (call_in i (slot_closed gone) (links_of self.old))) }
        ensures token { OnOk result (self.new ≡ with_links (links_of self.new)
            (with_token (undone i self.old.ring.token) self.old)) }
        ensures kept { OnErr result (self.new ≡ self.old) }
        ensures same { OnErr result (out.new ≡ out.old) }
        ensures spent { OnErr result (nat_lt last_number (undone i self.old.ring.token).version ≡ true) }
        ensures short { length out.new ≤ length out.old + 1 }
    {
        match self.undo(i) {
            Ok(()) => {
                self.links.close(i, gone, out);
                Ok(())
            }
            Err(spent) => Err(spent),
        }
    }

    /// The flight has arrived, where one has come.
    fn arrive_by(&mut self, i: usize, cause: &Cause, told: &mut Reports) -> Result<(), Spent>
        requires { length told.old < MAX_RING_REPORTS }
        ensures ok { OnOk result ((sent : List (Who × Body)) →
            step self.new sent told.new ≡ by (λ c w. arrived_in i cause.now.flight (slot_at i w.ring.slots) w)
            (step self.old sent told.old)) }
        ensures err { OnErr result ((sent : List (Who × Body)) →
            IsBroken (λ c w. arrived_in i cause.now.flight (slot_at i w.ring.slots) w)
            (step self.old sent told.old) (step self.new sent told.new)) }
        ensures few { length told.new ≤ length told.old + 1 }
    {
        match &cause.flight {
            Some(flight) => self.arrive(i, flight, told),
            None => Ok(()),
        }
    }

    /// The flight of the slot comes back, and its slot ends.
    fn take_back(
        &mut self,
        i: usize,
        gone: bool,
        out: &mut Outbox,
        told: &mut Reports,
    ) -> Result<(), Spent>
        requires room { length out.old < OUTBOX_LIMIT }
        requires place { length told.old < MAX_RING_REPORTS }
        ensures ok { OnOk result (step self.new out.new told.new ≡ by
            (λ c w. returned_in i gone (slot_at i w.ring.slots) w) (step self.old out.old told.old)) }
        ensures err { OnErr result (IsBroken (λ c w. returned_in i gone (slot_at i w.ring.slots) w)
            (step self.old out.old told.old) (step self.new out.new told.new)) }
        ensures few { length told.new ≤ length told.old + 1 }
        ensures short { length out.new ≤ length out.old + 1 }
    {
        let Some(Some(link)) = self.links.slots().get(i) else {
            return Ok(());
        };
        let Some(flight) = &link.flight else {
            return Ok(());
        };
        match self.token.take(&flight.part) {
            Ok(()) => {
                let report = Report::Returned(link.peer, flight.number, flight.part.copy());
                match self.end(i, gone, out) {
                    Ok(()) => {
                        told.push(report);
                        Ok(())
                    }
                    Err(spent) => Err(spent),
                }
            }
            Err(TokenRefusal::Counters) => Err(Spent),
            Err(_) => Ok(()),
        }
    }

    /// An heir is ripe.
    fn take_over(&mut self, i: usize, told: &mut Reports) -> Result<(), Spent>
        requires { length told.old < MAX_RING_REPORTS }
        ensures ok { OnOk result ((sent : List (Who × Body)) →
            step self.new sent told.new ≡ by (λ c w. ripe_in i (slot_at i w.ring.slots) w)
            (step self.old sent told.old)) }
        ensures err { OnErr result ((sent : List (Who × Body)) →
            IsBroken (λ c w. ripe_in i (slot_at i w.ring.slots) w) (step self.old sent told.old)
            (step self.new sent told.new)) }
        ensures few { length told.new ≤ length told.old + 1 }
    {
        let Some(Some(link)) = self.links.slots().get(i) else {
            return Ok(());
        };
        let (peer, flight) = (link.peer, link.flight.as_ref().map(|flight| &flight.part));
        match self.token.inherit(&link.held, flight) {
            Ok(added) => {
                self.links.drop_slot(i);
                self.hold();
                told.push(Report::TookOver(peer, added));
                Ok(())
            }
            Err(TokenRefusal::Counters) => Err(Spent),
            Err(_) => Ok(()),
        }
    }

    /// Does what a note leaves to the node.
    fn note(
        &mut self,
        cause: &Cause,
        note: &LinkNote,
        out: &mut Outbox,
        told: &mut Reports,
    ) -> Result<(), Spent>
        requires room { length out.old < OUTBOX_LIMIT }
        requires place { length told.old < MAX_RING_REPORTS }
        ensures ok { OnOk result (step self.new out.new told.new ≡ by (λ c. noted cause.now note.now)
            (step self.old out.old told.old)) }
        ensures err { OnErr result (IsBroken (λ c. noted cause.now note.now) (step self.old out.old told.old)
            (step self.new out.new told.new)) }
        ensures few { length told.new ≤ length told.old + 1 }
        ensures short { length out.new ≤ length out.old + 1 }
    {
        match note {
            LinkNote::BoundNow => self.bind(),
            LinkNote::Wanted(i) => return self.grant(*i),
            LinkNote::Arrived(i) => return self.arrive_by(*i, cause, told),
            LinkNote::Return(i) => return self.take_back(*i, cause.gone, out, told),
            LinkNote::Undo(i) => return self.undo(*i),
            LinkNote::AccusedNow(who) => told.push(Report::Accused(*who)),
            LinkNote::DischargedNow(who) => told.push(Report::Discharged(*who)),
            LinkNote::HeirNow(who, ripe) => told.push(Report::Heir(*who, *ripe)),
            LinkNote::Ripe(i) => return self.take_over(*i, told),
            LinkNote::Leave(why) => self.leave(*why, out, told),
        }
        Ok(())
    }

    /// Does what the notes leave to the node, in their order.
    pub(crate) fn notes(
        &mut self,
        cause: &Cause,
        notes: &[LinkNote],
        out: &mut Outbox,
        told: &mut Reports,
    ) -> Result<(), Spent>
        requires room { length out.old + length notes.now ≤ OUTBOX_LIMIT }
        requires place { length told.old + length notes.now ≤ MAX_RING_REPORTS }
        ensures ok { OnOk result (step self.new out.new told.new ≡ by (λ c. all_noted cause.now notes.now)
            (step self.old out.old told.old)) }
        ensures err { OnErr result (IsBrokenOff (λ c. all_noted cause.now notes.now)
            (step self.old out.old told.old) (step self.new out.new told.new)) }
        ensures few { length told.new ≤ length told.old + length notes.now }
        ensures short { length out.new ≤ length out.old + length notes.now }
    {
        for note in notes {
            match self.note(cause, note, out, told) {
                Ok(()) => {}
                Err(spent) => return Err(spent),
            }
        }
        Ok(())
    }
}
