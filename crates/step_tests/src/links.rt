ghost use Rattle.std.specs.Prelude.{◌≡◌, ◌≤◌, IsTrue};
ghost use Rattle.link_core.specs.Frames.{may_come};

use crate::outboxes::outbox;
use drift_clock::Bound;
use fabric_terms::{Body, Message, Outbox};
use link_core::{Announce, LinkNote, LinkRefusal, Links16};
use ring_points::{Flight, RangeSet, Who};
use std::alloc::Global;
use std::process::Abort;

fn instance(actor: u16) -> Who
    ensures { result ≡ record { actor = actor; instance = 1 } }
{
    Who { actor, instance: 1 }
}

/// A node's links, and what their last call sent.
#[derive(Drop)]
struct Linking {
    links: Links16,
    out: Outbox,
}

fn links(rt: &impl Abort, alloc: Global, node: u16) -> Linking {
    let bound = Bound { d: 10, grain: 1 };
    Linking {
        links: Links16::new(instance(node), 3000, 3000, 1000, bound, 3, 1),
        out: outbox(rt, alloc),
    }
}

fn wanting() -> Announce {
    Announce {
        version: 1,
        ranges: RangeSet::new(),
        want: true,
    }
}

/// The only frame that is sent: its word, and its first two numbers, or the stamp and the last flight of a Renew.
type Said = (&'static str, u64, u32);

fn said(out: &Outbox) -> Said {
    match out.messages() {
        [(_, Body::Hello { mine })] => ("hello", *mine as u64, 0),
        [(_, Body::Offer { mine, yours })] => ("offer", *mine as u64, *yours),
        [(_, Body::Take { mine, yours })] => ("take", *mine as u64, *yours),
        [
            (
                _,
                Body::Renew {
                    stamp,
                    got,
                    want,
                    ..
                },
            ),
        ] if *want => ("wanting renewal", *stamp, *got),
        _ => ("something else", 0, 0),
    }
}

/// What the links answer to this frame of the node, and whether a link that is bound is all that they leave to do.
fn hear(at: &mut Linking, now: u64, node: u16, body: Body) -> (Said, bool)
    requires now { now ≤ 1_000_000_000_000_000 }
    requires frame { IsTrue (may_come at.old.links.arbitrators (record { actor = node; instance = 1 }) body) }
{
    at.out.clear();
    let from = instance(node);
    let to = from;
    let message = Message { from, to, body };
    let notes = at.links.on_frame(now, &message, &wanting(), &mut at.out);
    (
        said(&at.out),
        matches!(notes.as_slice(), [LinkNote::BoundNow]),
    )
}

/// What the links say at reading 0 as they ask this node for a link.
fn greet(at: &mut Linking, node: u16, span: Option<u64>) -> (Result<(), LinkRefusal>, Said) {
    at.out.clear();
    let asked = at.links.hello(node, 0, span, &mut at.out);
    (asked, said(&at.out))
}

/// What the links say at reading 100 as their first slot is due.
fn renewal(at: &mut Linking) -> Said {
    at.out.clear();
    let _ = at.links.due(0, 100, &wanting(), &mut at.out);
    said(&at.out)
}

/// The links of node 2 ask those of node 1 for a link, which offer it.
fn offer(rt: &impl Abort, one: &mut Linking, two: &mut Linking) {
    assert_eq!(rt; greet(two, 1, None), (Ok(()), ("hello", 1, 0)));
    let (offer, _) = hear(one, 0, 2, Body::Hello { mine: 1 });
    assert_eq!(rt; offer, ("offer", 1, 1));
    assert_eq!(rt; (one.links.fence(), two.links.fence()), (Some(4000), None));
}

/// The links of node 2 take the offer, and those of node 1 answer with a renewal.
fn take(rt: &impl Abort, one: &mut Linking, two: &mut Linking) {
    let take = hear(two, 0, 1, Body::Offer { mine: 1, yours: 1 });
    assert_eq!(rt; take, (("take", 1, 1), true));
    let (renew, _) = hear(one, 0, 2, Body::Take { mine: 1, yours: 1 });
    assert_eq!(rt; renew, ("wanting renewal", 0, 0));
}

/// The fence of the links of node 2 is behind the stamp of what they renew.
fn renew(rt: &impl Abort, two: &mut Linking) {
    assert_eq!(rt; renewal(two), ("wanting renewal", 100, 0));
    let ack = Body::RenewAck {
        mine: 1,
        yours: 1,
        stamp: 100,
        version: 1,
    };
    hear(two, 250, 1, ack);
    assert_eq!(rt; two.links.fence(), Some(4100));
}

#[test]
fn a_link_is_bound_and_renewed(rt: HostRuntime) {
    let (mut one, mut two) = (links(&rt, rt.alloc(), 1), links(&rt, rt.alloc(), 2));
    offer(&rt, &mut one, &mut two);
    take(&rt, &mut one, &mut two);
    renew(&rt, &mut two);
}

/// The fences of both sides of a link that node 2 asked for with this length.
fn fences(rt: &impl Abort, alloc: Global, span: u64) -> (Option<u64>, Option<u64>) {
    let (mut one, mut two) = (links(rt, alloc, 1), links(rt, alloc, 2));
    let _ = greet(&mut two, 1, Some(span));
    let length = span.min(3000);
    hear(&mut one, 0, 2, Body::HelloFor { mine: 1, length });
    let offer = Body::OfferFor {
        mine: 1,
        yours: 1,
        length,
    };
    hear(&mut two, 0, 1, offer);
    (one.links.fence(), two.links.fence())
}

#[test]
fn the_smaller_length_counts(rt: HostRuntime) {
    assert_eq!(rt; fences(&rt, rt.alloc(), 1000), (Some(2000), Some(2000)));
    assert_eq!(rt; fences(&rt, rt.alloc(), 9000), (Some(4000), Some(4000)));
}

/// Node 1 gets links with nodes 2 to 5, in the slots from 0 on.
fn bind_four(rt: &impl Abort, one: &mut Linking) {
    for (node, length, fence) in [
        (2, 2000, 3000),
        (3, 900, 1900),
        (4, 2500, 1900),
        (5, 900, 1900),
    ] {
        hear(one, 0, node, Body::HelloFor { mine: 1, length });
        assert_eq!(rt; one.links.fence(), Some(fence), "with {node}");
    }
}

/// What the peers say to a Gone ends a slot, and the next least end counts.
fn close_four(rt: &impl Abort, one: &mut Linking) {
    for (slot, fence) in [(1, Some(1900)), (3, Some(3000)), (0, Some(3500)), (2, None)] {
        one.out.clear();
        one.links.close(slot, false, &mut one.out);
        assert_eq!(rt; one.links.fence(), fence, "without {slot}");
    }
}

#[test]
fn the_fence_is_the_least_of_all(rt: HostRuntime) {
    let mut one = links(&rt, rt.alloc(), 1);
    bind_four(&rt, &mut one);
    close_four(&rt, &mut one);
}

fn parted(at: &mut Linking) -> Result<(), LinkRefusal> {
    at.out.clear();
    at.links.part(1, &mut at.out)
}

/// A flight is under way to the peer of the first slot.
fn put_flight(at: &mut Linking) {
    let flight = Flight {
        number: 1,
        part: RangeSet::whole(),
    };
    at.out.clear();
    at.links.put_flight(0, &flight, &mut at.out);
}

/// The links of node 2 with node 1.
fn linked(rt: &impl Abort, alloc: Global) -> Linking {
    let mut two = links(rt, alloc, 2);
    hear(&mut two, 0, 1, Body::Hello { mine: 1 });
    two
}

#[test]
fn a_part_needs_a_link_without_a_flight(rt: HostRuntime) {
    assert_eq!(rt;
        parted(&mut links(&rt, rt.alloc(), 2)),
        Err(LinkRefusal::NotLinked)
    );
    let mut two = linked(&rt, rt.alloc());
    put_flight(&mut two);
    assert_eq!(rt; parted(&mut two), Err(LinkRefusal::Busy));
}

/// The links ask nodes 3 to 17.
fn fill(at: &mut Linking) {
    for node in 3..18 {
        let _ = greet(at, node, None);
    }
}

fn taken(at: &Linking) -> usize {
    at.links
        .slots()
        .iter()
        .filter(|slot| slot.is_some())
        .count()
}

#[test]
fn a_hello_needs_a_new_node_and_a_free_slot(rt: HostRuntime) {
    let mut two = linked(&rt, rt.alloc());
    let (asked, _) = greet(&mut two, 1, None);
    assert_eq!(rt; asked, Err(LinkRefusal::AlreadyLinked));
    put_flight(&mut two);
    fill(&mut two);
    let (asked, _) = greet(&mut two, 18, None);
    assert_eq!(rt; asked, Err(LinkRefusal::Full));
    assert_eq!(rt; taken(&two), 16);
}
