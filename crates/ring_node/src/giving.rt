ghost use Rattle.std.specs.Prelude.{◌≡◌, ◌+◌, ◌<◌, ◌≤◌, IfOk, List, IfSome, None, OnErr, OnOk, false, is_err, length};
ghost use Rattle.std.specs.Prelude.{not, true};
ghost use Rattle.fabric_terms.specs.declared.message.Body.{Body};
ghost use Rattle.ring_points.specs.declared.who.Who.{Who};
ghost use Rattle.ring_node.specs.Grants.{gift};
ghost use Rattle.ring_node.specs.Nodes.{by, step};
ghost use Rattle.join_phases.specs.Phases.{is_routing};
ghost use Rattle.ring_points.specs.Ranges.{fits};
ghost use Rattle.ring_rules.specs.Commands.{give_at, give_commanded, give_unless};
ghost use Rattle.ring_rules.specs.Deeds.{has_numbers};
ghost use Rattle.ring_rules.specs.Renewals.{may_freeze, owns_none};
ghost use Rattle.ring_rules.specs.Slots.{is_bound, of_node, slot_at, slot_where};

use crate::near::nearer_part;
use crate::node::RingNode;
use crate::refusals::{refuse, refuse_gift};
use crate::reports::Reports;
use crate::tokens::Spent;
use fabric_terms::{Reason, Verb};
use link_core::{Link, LinkState, SLOTS};
use ring_points::{MAX_RING_REPORTS, RangeSet, TooMany, Who};

fn is_bound_with(slot: &Option<Link>, node: u16) -> bool
    ensures { result ≡ of_node is_bound node slot.now }
{
    match slot {
        Some(link) => link.peer.actor == node && matches!(link.state, LinkState::Bound),
        None => false,
    }
}

impl RingNode {
    /// The first slot that is bound to the node.
    fn bound_with(&self, node: u16) -> Option<usize>
        ensures place { result ≡ slot_where (of_node is_bound node) self.now.ring.slots }
        ensures inside { IfSome result (λ i. i < SLOTS) }
    {
        self.links
            .slots()
            .iter()
            .position(|slot| is_bound_with(slot, node))
    }

    /// All that is owned, or the part of it that is nearer to the peer.
    fn gift(&self, all: bool, peer: Who) -> Result<RangeSet, TooMany>
        ensures part { IfOk result (λ r. r ≡ gift all self.now.ring peer) }
        ensures too_many { is_err result ≡ not (fits (gift all self.now.ring peer)) }
        ensures whole { all ≡ true → is_err result ≡ false }
    {
        let ranges = self.token.ranges();
        if ranges.intervals().is_empty() || all {
            return Ok(ranges.copy());
        }
        let (mine, other) = (
            self.point_of(self.links.me().actor),
            self.point_of(peer.actor),
        );
        nearer_part(ranges, mine, other)
    }

    /// Freezes a part for the slot, where no freeze stands.
    fn give_part(&mut self, part: &RangeSet, i: usize, told: &mut Reports) -> Result<(), Spent>
        requires routing { is_routing self.old.ring.phase ≡ true }
        requires free { self.old.ring.token.freeze ≡ None }
        requires fits { fits part.now ≡ true }
        requires place { length told.old < MAX_RING_REPORTS }
        ensures ok { OnOk result ((sent : List (Who × Body)) →
            step self.new sent told.new ≡ by (λ c w. give_unless i part.now w false (owns_none w.ring.token part.now)
            (may_freeze w.ring.token part.now)) (step self.old sent told.old)) }
        ensures err { OnErr result ((sent : List (Who × Body)) →
            has_numbers (give_unless i part.now (step self.old sent told.old).work false
            (owns_none self.old.ring.token part.now) (may_freeze self.old.ring.token part.now)).ring ≡ false) }
        ensures kept { OnErr result (self.new ≡ self.old) }
        ensures same { OnErr result (told.new ≡ told.old) }
        ensures few { length told.new ≤ length told.old + 1 }
    {
        match self.freeze(part, i) {
            Ok(()) => Ok(()),
            Err(refusal) => refuse_gift(refusal, told),
        }
    }

    /// Freezes what is to be given to the peer of the slot, or tells the first reason why not.
    fn give_in(&mut self, all: bool, i: usize, told: &mut Reports) -> Result<(), Spent>
        requires routing { is_routing self.old.ring.phase ≡ true }
        requires place { length told.old < MAX_RING_REPORTS }
        ensures ok { OnOk result ((sent : List (Who × Body)) →
            step self.new sent told.new ≡ by (λ c w. give_at all i (slot_at i w.ring.slots) w)
            (step self.old sent told.old)) }
        ensures err { OnErr result ((sent : List (Who × Body)) →
            has_numbers (give_at all i (slot_at i self.old.ring.slots) (step self.old sent told.old).work).ring ≡ false) }
        ensures kept { OnErr result (self.new ≡ self.old) }
        ensures same { OnErr result (told.new ≡ told.old) }
        ensures few { length told.new ≤ length told.old + 1 }
    {
        let Some(peer) = self.peer(i) else {
            return Ok(());
        };
        // One part goes at a time: a second freeze would be of a version that the first one's acknowledgements don't
        // cover.
        if self.token.frozen_for().is_some() || self.has_flight(i) {
            refuse(Verb::Give, Reason::Busy, told);
            return Ok(());
        }
        match self.gift(all, peer) {
            Ok(part) => self.give_part(&part, i, told),
            Err(_) => {
                refuse(Verb::Give, Reason::TooMany, told);
                Ok(())
            }
        }
    }

    /// The command to give a node all points, or those that are nearer to it.
    #[tactic(auto, unfolding(ring_rules::specs::Commands::give_commanded))]
    pub(crate) fn give(&mut self, all: bool, node: u16, told: &mut Reports) -> Result<(), Spent>
        requires { length told.old < MAX_RING_REPORTS }
        ensures ok { OnOk result ((sent : List (Who × Body)) →
            step self.new sent told.new ≡ by (λ c. give_commanded all node) (step self.old sent told.old)) }
        ensures err { OnErr result ((sent : List (Who × Body)) →
            has_numbers (give_commanded all node (step self.old sent told.old).work).ring ≡ false) }
        ensures kept { OnErr result (self.new ≡ self.old) }
        ensures same { OnErr result (told.new ≡ told.old) }
        ensures few { length told.new ≤ length told.old + 1 }
    {
        if !self.is_routing() {
            refuse(Verb::Give, Reason::NotRouting, told);
            return Ok(());
        }
        match self.bound_with(node) {
            Some(i) => self.give_in(all, i, told),
            None => {
                refuse(Verb::Give, Reason::NotLinked, told);
                Ok(())
            }
        }
    }
}
