ghost use Rattle.std.specs.Prelude.{◌≡◌, ◌≤◌, ◌==◌, find, length, map, option_map, IsTrue};
ghost use Rattle.ring_points.specs.declared.who.Who.{Who};
ghost use Rattle.ring_points.specs.Distances.{is_nearer};
ghost use Rattle.ring_route.specs.Entries.{is_node, no_routes, points_of};
ghost use Rattle.ring_route.specs.Routes.{heard, hop_to, near_nodes, nearest_of, next_hop, point_of, up_of};

use crate::hop::Hop;
use crate::known::{Known, hear_again, hops};
use crate::near::{Way, add_nodes, sorted, without_repeats};
use arrayvec::ArrayVec;
use lane_scan::nearest;
use ring_points::{MAX_NODES, Point, Who, nearer};
use std::marker::Model;

/// What a node knows of the others. Contracts see it as the record `Routes`: the points of the configured
/// nodes, and whom it heard, in the order of first hearing.
#[derive(Drop)]
pub struct RouteTable {
    me: Who,
    points: ArrayVec<(u16, u64), MAX_NODES>,
    known: ArrayVec<Known, MAX_NODES>,
}

impl Model for RouteTable {
    ghost use Rattle.ring_route.specs.Routes.{Routes};
    ghost use Rattle.ring_route.specs.Entries.{IsTable};

    ghost Value = { Routes };

    ghost view = { λ a. record { me = a.me; points = a.points.items; known = a.known.items } };

    ghost invariant = { λ a. IsTable a.points.items a.known.items };
}

fn copied(points: &[(u16, Point)]) -> ArrayVec<(u16, u64), MAX_NODES>
    requires { length points.now ≤ MAX_NODES }
    ensures { result.items ≡ points_of points.now }
{
    let mut copy = ArrayVec::new();
    for (node, point) in points {
        copy.push((*node, point.0));
    }
    copy
}

fn entry_of(points: &[(u16, u64)], node: u16) -> Option<&(u16, u64)>
    ensures { option_map (λ p. p.now) result ≡ find (λ p. p.0 == node) points.now }
{
    points.iter().find(|p| p.0 == node)
}

fn point_of(points: &[(u16, u64)], node: u16) -> u64
    ensures { result ≡ point_of node points.now }
{
    match entry_of(points, node) {
        Some(entry) => entry.1,
        None => 0,
    }
}

fn points_of_hops(hops: &[Known]) -> ArrayVec<u64, MAX_NODES>
    requires { length hops.now ≤ MAX_NODES }
    ensures { result.items ≡ map (λ k. k.point) hops.now }
{
    let mut points = ArrayVec::new();
    for k in hops {
        points.push(k.point);
    }
    points
}

/// The hop to the nearest of these nodes, where it is nearer to the key than the own point.
fn nearest_hop(hops: &[Known], key: u64, own: u64) -> Hop
    requires { length hops.now ≤ MAX_NODES }
    ensures { result ≡ hop_to key own (nearest_of key hops.now) }
{
    let points = points_of_hops(hops);
    let Some(place) = nearest(points.as_slice(), key) else {
        return Hop::Nowhere;
    };
    let k = hops[place];
    if nearer(Point(key), Point(k.point), Point(own)) {
        Hop::To(k.who)
    } else {
        Hop::Nowhere
    }
}

impl RouteTable {
    /// The table of this node, which heard nobody. The points are those of the configured nodes, at most
    /// 64: the caller gives all distinct ones, its own among them.
    pub fn new(me: Who, points: &[(u16, Point)]) -> Self
        requires { length points.now ≤ MAX_NODES }
        ensures { result ≡ no_routes me points.now }
    {
        RouteTable {
            me,
            points: copied(points),
            known: ArrayVec::new(),
        }
    }

    /// Notes that a frame of another configured node was taken at this reading. A lower instance than the
    /// known one changes nothing.
    pub fn heard(&mut self, who: Who, now: u64)
        requires { IsTrue (is_node who.actor self.old.points) }
        ensures { self.new ≡ heard self.old who now }
    {
        if !hear_again(self.known.as_mut_slice(), who, now) {
            let point = point_of(self.points.as_slice(), who.actor);
            self.known.push(Known {
                who,
                point,
                heard: now,
            });
        }
    }

    /// The instance of this node, if it was heard at the reading `since` or later.
    pub fn up(&self, node: u16, since: u64) -> Option<Who>
        ensures { result ≡ up_of self.now node since }
    {
        let k = self
            .known
            .as_slice()
            .iter()
            .find(|k| k.who.actor == node && since <= k.heard)?;
        Some(k.who)
    }

    fn own(&self) -> u64
        ensures { result ≡ point_of self.now.me.actor self.now.points }
    {
        point_of(self.points.as_slice(), self.me.actor)
    }

    /// Where a search for this point goes on: at the node itself where it holds the point, else at the
    /// known node nearest to it, which is not accused and not the one to skip, where that is strictly nearer.
    pub fn next(&self, key: Point, holds: bool, skip: Option<u16>, accused: &[Who]) -> Hop
        ensures hop { result ≡ next_hop self.now key.0 holds skip accused.now }
        ensures nearer { (w : Who) → result ≡ Hop.To w →
            IsTrue (is_nearer key.0 (point_of w.actor self.now.points) (point_of self.now.me.actor self.now.points)) }
    {
        if holds {
            return Hop::Here;
        }
        let hops = hops(self.known.as_slice(), skip, accused);
        nearest_hop(hops.as_slice(), key.0, self.own())
    }

    /// The numbers of the known nodes, but for the accused, that stand near on the ring: the `count` next
    /// upwards from the own point, then the `count` next downwards, each once.
    pub fn near(&self, count: u8, accused: &[Who]) -> ArrayVec<u16, 8>
        requires { count ≤ 4 }
        ensures { result.items ≡ near_nodes self.now count accused.now }
    {
        let others = hops(self.known.as_slice(), None, accused);
        let mut nodes = ArrayVec::new();
        let (own, count) = (self.own(), usize::from(count));
        let upwards = sorted(others.as_slice(), Way::Upwards, own);
        add_nodes(&mut nodes, upwards.as_slice(), count);
        let downwards = sorted(others.as_slice(), Way::Downwards, own);
        add_nodes(&mut nodes, downwards.as_slice(), count);
        without_repeats(nodes.as_slice())
    }
}
