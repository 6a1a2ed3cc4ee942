ghost use Rattle.std.specs.Prelude.{IsTrue};
ghost use Rattle.ring_node.specs.Steps.{is_sound_input};

use crate::ring::{HIGH, LOWER, Stepped, from, instance, started, step};
use fabric_terms::{Body, Command, Outbox, Reason, Report, Verb};
use join_phases::Phase;
use ring_node::{Input, RingNode};
use ring_points::{Point, Who};
use std::alloc::Global;
use std::process::Abort;

/// Node 1, which owns the ring, or seeks its place in it.
fn one_of_three(rt: &impl Abort, alloc: Global, first: bool) -> Stepped {
    let instance = if first { 1 } else { 2 };
    started(rt, alloc, Who { actor: 1, instance })
}

/// To which node the only frame goes, and how many hops a Seek in it has made, 0 for a Found.
fn sent_to(out: &Outbox) -> Option<(u16, u8)> {
    match out.messages() {
        [(to, Body::Seek { hops, .. })] => Some((to.actor, *hops)),
        [(to, Body::Found { .. })] => Some((to.actor, 0)),
        _ => None,
    }
}

/// Where the only frame goes that the node sends at reading 100, and how many reports it makes.
fn taken(at: &mut Stepped, input: &Input) -> (Option<(u16, u8)>, usize)
    requires { IsTrue (is_sound_input input.now) }
{
    let told = step(at, 100, input);
    (sent_to(&at.out), told.as_slice().len())
}

/// The node hears that node 3 is up.
fn hear_from_three(at: &mut Stepped) {
    let ack = Body::RenewAck {
        mine: 1,
        yours: 1,
        stamp: 100,
        version: 1,
    };
    taken(at, &from(instance(3), 1, ack));
}

/// What the node does with a Seek of node 2.
fn sought(at: &mut Stepped, key: u64) -> (Option<(u16, u8)>, usize) {
    let seek = Body::Seek {
        origin: instance(2),
        key: Point(key),
        hops: 0,
    };
    taken(at, &from(instance(2), 1, seek))
}

/// What a node that has heard node 3, or owns the ring, does with a Seek of node 2.
fn seek(rt: &impl Abort, alloc: Global, first: bool, key: u64) -> (Option<(u16, u8)>, usize) {
    let mut at = one_of_three(rt, alloc, first);
    hear_from_three(&mut at);
    sought(&mut at, key)
}

#[test]
fn a_seek_goes_on_by_the_nearer_node(rt: HostRuntime) {
    for (first, key, want) in [
        (true, LOWER, (Some((2, 0)), 0)),
        (false, LOWER, (Some((3, 1)), 0)),
        (false, 1 << 60, (None, 1)),
    ] {
        assert_eq!(rt; seek(&rt, rt.alloc(), first, key), want, "for {key}");
    }
}

/// The only report of a command, where it is a refusal.
fn refusal(at: &mut Stepped, command: Command) -> Option<(Verb, Reason)> {
    let told = step(at, 100, &Input::Do(command));
    match told.as_slice() {
        [Report::Refused(verb, reason)] => Some((*verb, *reason)),
        _ => None,
    }
}

/// The command of this verb about node 2.
fn about_two(verb: Verb) -> Command {
    match verb {
        Verb::Link => Command::Link(2),
        Verb::Part => Command::Part(2),
        Verb::Give => Command::GiveNear(2),
        _ => Command::Join(2),
    }
}

/// The commands about node 2, with which it is not bound yet, in this order.
fn refuses_each(rt: &impl Abort, at: &mut Stepped) {
    for (verb, reason) in [
        (Verb::Link, Reason::Linked),
        (Verb::Part, Reason::NotLinked),
        (Verb::Give, Reason::NotLinked),
        (Verb::Join, Reason::Busy),
    ] {
        let refused = refusal(at, about_two(verb));
        assert_eq!(rt; refused, Some((verb, reason)));
    }
}

#[test]
fn commands_are_refused(rt: HostRuntime) {
    let mut first = one_of_three(&rt, rt.alloc(), true);
    assert_eq!(rt; refusal(&mut first, Command::Link(2)), None);
    refuses_each(&rt, &mut first);
}

#[test]
fn a_seeking_node_gives_nothing(rt: HostRuntime) {
    let mut seeking = one_of_three(&rt, rt.alloc(), false);
    let give = refusal(&mut seeking, Command::GiveAll(2));
    assert_eq!(rt; give, Some((Verb::Give, Reason::NotRouting)));
}

/// Whether a Found of node 3 is all that the node reports.
fn finds(at: &mut Stepped) -> bool {
    let found = Body::Found {
        key: Point(HIGH),
        holder: instance(1),
    };
    let told = step(at, 100, &from(instance(3), 1, found));
    matches!(told.as_slice(), [Report::Found(..)])
}

/// How many nodes are up, and the first two.
fn up(ring: &RingNode, now: u64) -> (usize, Option<u16>, Option<u16>) {
    let nodes = ring.up_nodes(now);
    let nodes = nodes.as_slice();
    (nodes.len(), nodes.get(0).copied(), nodes.get(1).copied())
}

/// Node 3 is up for two leases from the reading on at which it was heard.
fn forgets_three(rt: &impl Abort, ring: &RingNode) {
    for (now, want) in [(6100, (2, Some(1), Some(3))), (6101, (1, Some(1), None))] {
        assert_eq!(rt; up(ring, now), want, "at {now}");
    }
}

#[test]
fn a_node_is_up_until_it_is_not_heard_for_long(rt: HostRuntime) {
    let mut at = one_of_three(&rt, rt.alloc(), true);
    assert_eq!(rt; up(&at.ring, 100), (1, Some(1), None));
    assert!(rt; finds(&mut at));
    forgets_three(&rt, &at.ring);
}

/// The node has its place, with the whole ring and no fence.
fn holds_all(rt: &impl Abort, ring: &RingNode) {
    assert_eq!(rt; (ring.me(), ring.fence()), (instance(1), None));
    assert_eq!(rt; ring.ranges().intervals().len(), 1);
    assert!(rt; matches!(ring.phase(), Phase::Routing(_)));
}

#[test]
fn the_first_node_holds_the_ring(rt: HostRuntime) {
    let mut at = one_of_three(&rt, rt.alloc(), true);
    assert!(rt; at.ring.holds(100, Point(HIGH)));
    assert!(rt; finds(&mut at));
    holds_all(&rt, &at.ring);
}
