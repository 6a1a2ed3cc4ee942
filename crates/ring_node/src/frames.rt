ghost use Rattle.std.specs.Prelude.{◌≡◌, ◌≤◌, IsTrue, length, map};
ghost use Rattle.ring_route.specs.Entries.{is_node as is_node_among};
ghost use Rattle.link_core.specs.Frames.{may_come};
ghost use Rattle.ring_node.specs.Nodes.{Rings, by, step};
ghost use Rattle.ring_rules.specs.Frames as rules;
ghost use Rattle.ring_rules.specs.Steps.{frame_if};
ghost use Rattle.fabric_terms.specs.Messages.{is_sound};
ghost use Rattle.ring_node.specs.Limits.{most_slot_messages, most_slot_reports};

use crate::node::RingNode;
use crate::reports::Reports;
use fabric_terms::{Body, Message, Outbox};
use ring_points::{ARBITRATORS, MAX_READING, Point, Who};
use ring_route::is_among;

fn is_for(me: Who, to: Who) -> bool
    ensures { result ≡ rules.is_for me to }
{
    to.actor == me.actor && (to.instance == 0 || to.instance == me.instance)
}

fn is_between_nodes(body: &Body) -> bool
    ensures { result ≡ rules.is_between_nodes body.now }
{
    matches!(
        body,
        Body::Hello { .. }
            | Body::HelloFor { .. }
            | Body::Offer { .. }
            | Body::OfferFor { .. }
            | Body::Take { .. }
            | Body::Renew { .. }
            | Body::RenewAck { .. }
            | Body::Transfer { .. }
            | Body::Gone { .. }
            | Body::Seek { .. }
            | Body::Found { .. }
    )
}

fn is_arbiters_answer(body: &Body) -> bool
    ensures { result ≡ rules.is_arbiters_answer body.now }
{
    matches!(
        body,
        Body::Ruled { .. }
            | Body::Kept { .. }
            | Body::Prepared { .. }
            | Body::NoPrepare { .. }
            | Body::Voted { .. }
            | Body::NoVote { .. }
            | Body::DoneKept { .. }
            | Body::NoDone { .. }
    )
}

/// Whether a number is that of one of these nodes.
fn has_node(points: &[(u16, Point)], actor: u16) -> bool
    ensures { result ≡ is_node_among actor (map (λ p. (p.0, p.1.0)) points.now) }
{
    for entry in points {
        if entry.0 == actor {
            return true;
        }
    }
    false
}

impl RingNode {
    fn is_node(&self, actor: u16) -> bool
        ensures { result ≡ rules.is_node self.now.ring actor }
    {
        has_node(self.points.as_slice(), actor)
    }

    fn is_arbiter(&self, actor: u16) -> bool
        ensures { result ≡ rules.is_arbiter self.now.settings actor }
    {
        ARBITRATORS < actor && actor <= ARBITRATORS + u16::from(self.links.arbitrators())
    }

    fn may_send(&self, actor: u16, body: &Body) -> bool
        ensures { result ≡ rules.may_send self.now.settings self.now.ring actor (rules.is_between_nodes body.now)
            (rules.is_arbiters_answer body.now) }
    {
        if is_arbiters_answer(body) {
            self.is_arbiter(actor)
        } else {
            self.is_node(actor) && !(is_between_nodes(body) && actor == self.links.me().actor)
        }
    }

    /// Whether the node takes the frame: it is for this instance, or for whichever runs, from nobody whom it accused,
    /// and from one who may send it.
    pub fn passes(&self, message: &Message) -> bool
        ensures { result ≡ rules.passes self.now.settings self.now.ring message.now }
    {
        is_for(self.links.me(), message.to)
            && !is_among(message.from, self.links.accused())
            && self.may_send(message.from.actor, &message.body)
    }

    /// Whether the sender of a frame that passes is a node. Only an arbitrator's answer may come from another actor, so
    /// that no other sender is looked for again.
    #[tactic(auto, using(crate::proofs::Come::sender_is_node))]
    fn is_from_node(&self, message: &Message) -> bool
        requires { IsTrue (rules.passes self.now.settings self.now.ring message.now) }
        ensures { result ≡ rules.is_node self.now.ring message.now.from.actor }
    {
        !is_arbiters_answer(&message.body) || self.is_node(message.from.actor)
    }

    /// The sender of a frame that passes is noted as heard, where it is another node.
    fn hear_sender(&mut self, now: u64, message: &Message)
        requires { IsTrue (rules.passes self.old.settings self.old.ring message.now) }
        ensures { Rings (λ c. rules.sender_heard now message.now.from) self.old self.new }
    {
        let from = message.from;
        if self.is_from_node(message) && from.actor != self.links.me().actor {
            self.routes.heard(from, now);
        }
    }

    /// The row of a frame that passes.
    #[tactic(auto, unfolding(ring_rules::specs::Seeks::seek_received, ring_rules::specs::Frames::frame_received))]
    fn hear_frame(&mut self, now: u64, message: &Message, out: &mut Outbox, told: &mut Reports)
        requires now { now ≤ MAX_READING }
        requires frame { IsTrue (may_come self.old.settings.arbitrators message.now.from message.now.body) }
        requires room { length out.old ≡ 0 }
        requires place { length told.old ≡ 0 }
        ensures row { step self.new out.new told.new ≡ by
            (λ c. rules.frame_received c now message.now.from message.now.body) (step self.old out.old told.old) }
        ensures few { length told.new ≤ most_slot_reports }
        ensures short { length out.new ≤ most_slot_messages }
    {
        match &message.body {
            Body::Seek { origin, key, hops } => self.hear_seek(*origin, *key, *hops, out, told),
            Body::Found { key, holder } => self.hear_found(now, *key, *holder, out, told),
            Body::RenewAck { .. } => self.hear_ack(message),
            _ => self.hear_link(now, message, out, told),
        }
    }

    /// A frame.
    pub(crate) fn hear(&mut self, now: u64, message: &Message, out: &mut Outbox, told: &mut Reports)
        requires now { now ≤ MAX_READING }
        requires frame { IsTrue (is_sound message.now) }
        requires room { length out.old ≡ 0 }
        requires place { length told.old ≡ 0 }
        ensures row { step self.new out.new told.new ≡ by
            (λ c w. frame_if c now message.now w (rules.passes c w.ring message.now)) (step self.old out.old told.old) }
        ensures few { length told.new ≤ most_slot_reports }
        ensures short { length out.new ≤ most_slot_messages }
    {
        if self.passes(message) {
            // First, so that the row of the frame knows of its sender.
            self.hear_sender(now, message);
            self.hear_frame(now, message, out, told);
        }
    }
}
