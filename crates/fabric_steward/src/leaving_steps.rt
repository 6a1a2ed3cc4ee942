// The steps of a node that leaves, in their order.
ghost use Rattle.std.specs.Prelude.{◌≡◌, find};
ghost use Rattle.ring_points.specs.Distances;
ghost use Rattle.std.specs.List.{list_any};
ghost use Rattle.std.specs.Option.{option_copied};
ghost use Rattle.fabric_steward.specs.Departures.{give_step, is_linked, is_to_part, leaving, nearer_of, nearest_bound};
ghost use Rattle.fabric_steward.specs.Departures.{part_step};

use crate::departure::Departure;
use crate::domains::domains_up;
use crate::known::Known;
use crate::leaving::Leaving;
use crate::linked::Linked;
use crate::node_watch::NodeWatch;
use crate::times::{first_pause, is_over};
use ring_points::Point;

/// How far a point stands ahead of another one, going upwards on the ring.
fn ahead_of(point: Point, of: u64) -> u64
    ensures { result ≡ Distances.ahead_of point.0 of }
{
    point.0.wrapping_sub(of)
}

/// The nearer of two nodes, going upwards from a point.
fn nearer_of(point: u64, node: NodeWatch, other: Option<NodeWatch>) -> NodeWatch
    ensures { result ≡ nearer_of point node other }
{
    match other {
        None => node,
        Some(other) => {
            if ahead_of(node.point, point) <= ahead_of(other.point, point) {
                node
            } else {
                other
            }
        }
    }
}

/// The nearest other node of these with a bound link.
fn nearest_bound<K: Linked>(
    known: &K,
    me: u16,
    point: u64,
    nodes: &[NodeWatch],
) -> Option<NodeWatch>
    ensures { result ≡ nearest_bound (K.links known.now) me point nodes.now }
{
    let mut nearest = None;
    let mut place = nodes.len();
    while place > 0 {
        place -= 1;
        let node = nodes[place];
        if node.node != me && known.is_bound(node.node) {
            nearest = Some(nearer_of(point, node, nearest));
        }
    }
    nearest
}

impl Departure {
    /// What is next: the first step that is not done.
    pub(crate) fn leaving<K: Known + Linked>(&self, known: &K, now: u64) -> Leaving
        ensures { result ≡ leaving (K.facts known.now) (K.links known.now) now self.now }
    {
        if is_over(now, self.lease, Some(self.begun)) {
            return Leaving::Done;
        }
        let domains = domains_up(known, now, self.nodes.as_slice());
        if let Some(next) = self.unit_step(known, now, domains) {
            return next;
        }
        if let Some(next) = self.give_step(known, now) {
            return next;
        }
        match self.part_step(known, now) {
            None => Leaving::Done,
            Some(next) => next,
        }
    }

    /// The points go to the nearest node upwards on the ring.
    fn give_step<K: Linked>(&self, known: &K, now: u64) -> Option<Leaving>
        ensures { result ≡ give_step (K.links known.now) now self.now }
    {
        let owns = known.owns();
        if !owns && !known.is_giving() {
            return None;
        }
        let Some(node) = nearest_bound(known, self.me, self.point, self.nodes.as_slice()) else {
            return None;
        };
        if owns && is_over(now, first_pause(self.lease), self.gave) {
            Some(Leaving::Give(node.node))
        } else {
            Some(Leaving::Rest)
        }
    }

    /// The links are parted.
    fn part_step<K: Linked>(&self, known: &K, now: u64) -> Option<Leaving>
        ensures { result ≡ part_step (K.links known.now) now self.now }
    {
        if let Some(node) = self.node_to_part(known, now) {
            return Some(Leaving::Part(node.node));
        }
        if self.has_link(known) {
            Some(Leaving::Rest)
        } else {
            None
        }
    }

    fn node_to_part<K: Linked>(&self, known: &K, now: u64) -> Option<&NodeWatch>
        ensures { option_copied result ≡ find (is_to_part (K.links known.now) now self.now) self.now.nodes }
    {
        self.nodes
            .iter()
            .find(|node| self.is_to_part(known, now, node))
    }

    fn has_link<K: Linked>(&self, known: &K) -> bool
        ensures { result ≡ list_any (is_linked (K.links known.now) self.now) self.now.nodes }
    {
        self.nodes.iter().any(|node| self.is_linked(known, node))
    }

    fn is_to_part<K: Linked>(&self, known: &K, now: u64, node: &NodeWatch) -> bool
        ensures { result ≡ is_to_part (K.links known.now) now self.now node.now }
    {
        self.is_linked(known, node) && is_over(now, first_pause(self.lease), node.asked)
    }

    fn is_linked<K: Linked>(&self, known: &K, node: &NodeWatch) -> bool
        ensures { result ≡ is_linked (K.links known.now) self.now node.now }
    {
        node.node != self.me && known.is_active(node.node)
    }
}
