ghost use Rattle.std.specs.Prelude.{◌≡◌, ◌≤◌, IsTrue};
ghost use Rattle.ring_node.specs.Steps.{is_sound_input};
ghost use Rattle.ring_points.specs.Whos.{arbiter_actor, node_instance};

use crate::ring::{Stepped, from, instance, started, step};
use fabric_terms::{Body, Command, Outbox, Report};
use ring_node::Input;
use ring_points::{RangeSet, Ruling, Who};
use std::alloc::Global;
use std::process::Abort;

/// A word for all that a step sends and reports, with how many messages it sends or the reading that it names.
type Seen = (&'static str, u64);

const NOTHING: Seen = ("nothing", 0);

fn arbitrator(number: u16) -> Who
    requires { number ≤ 9 }
    ensures { result ≡ node_instance (arbiter_actor number) 0 }
{
    Who {
        actor: 32768 + number,
        instance: 0,
    }
}

/// How many claims are sent, each of this round, to arbitrators in their order.
fn claims(out: &Outbox, round: u8) -> usize {
    let claims = out.messages().iter().filter(|(to, body)| {
        to.actor > 32768 && matches!(body, Body::Claim { round: of, .. } if *of == round)
    });
    claims.count()
}

/// What is sent where nothing is reported.
fn sent(out: &Outbox) -> Seen {
    let count = out.messages().len();
    if count == 0 {
        NOTHING
    } else if claims(out, 1) == count {
        ("claims of round 1", count as u64)
    } else if claims(out, 2) == count {
        ("claims of round 2", count as u64)
    } else {
        ("other messages", count as u64)
    }
}

fn word(out: &Outbox, told: &[Report]) -> Seen {
    match told {
        [] => sent(out),
        [Report::Accused(_)] => ("accused", out.messages().len() as u64),
        [Report::Discharged(_), Report::Own(_, None)] => ("discharged, without a fence", 0),
        [Report::Heir(_, at)] => ("heir", *at),
        [Report::TookOver(..), Report::Own(_, None)] => ("took over, without a fence", 0),
        _ => ("other reports", 0),
    }
}

fn seen(at: &mut Stepped, now: u64, input: &Input) -> Seen
    requires now { now ≤ 1_000_000_000_000_000 }
    requires sound { IsTrue (is_sound_input input.now) }
{
    let told = step(at, now, input);
    word(&at.out, told.as_slice())
}

fn fire(at: &mut Stepped, now: u32) -> Seen {
    seen(at, now as u64, &Input::Fire)
}

/// What a ruling of this arbitrator about node 1 brings about.
fn rule(rt: &impl Abort, at: &mut Stepped, number: u16, ruling: Ruling) -> Seen {
    assert!(rt; 1 <= number && number <= 3);
    let victim = instance(1);
    let ruled = Body::Ruled { victim, ruling };
    seen(at, 3150, &from(arbitrator(number), 2, ruled))
}

/// What an answer of this arbitrator to a claim about node 1 brings about.
fn keep(rt: &impl Abort, at: &mut Stepped, number: u16, round: u8, claimer: u16) -> Seen {
    assert!(rt; 1 <= number && number <= 3);
    assert!(rt; 1 <= round && round <= 2 && 2 <= claimer && claimer <= 4);
    let kept = Body::Kept {
        victim: instance(1),
        round,
        claimer: instance(claimer),
    };
    seen(at, 3300, &from(arbitrator(number), 2, kept))
}

/// Binds node 2 to node 1, which holds the ring.
fn bind(at: &mut Stepped) {
    seen(at, 100, &Input::Do(Command::Link(1)));
    let offer = Body::Offer { mine: 1, yours: 1 };
    seen(at, 100, &from(instance(1), 2, offer));
    let renew = Body::Renew {
        mine: 1,
        yours: 1,
        stamp: 100,
        version: 1,
        got: 0,
        want: false,
        ranges: RangeSet::whole(),
    };
    seen(at, 100, &from(instance(1), 2, renew));
}

/// Node 2, bound at reading 100 to node 1, once it has accused node 1.
fn accuser(rt: &impl Abort, alloc: Global) -> Stepped {
    let mut at = started(rt, alloc, instance(2));
    bind(&mut at);
    assert_eq!(rt; fire(&mut at, 3100), ("accused", 3));
    assert_eq!(rt; at.ring.fence(), Some(4100));
    at
}

/// The arbitrators rule each for another, and the second refusal frees node 2.
fn split(rt: &impl Abort, at: &mut Stepped) {
    assert_eq!(rt; rule(rt, at, 1, Ruling::Granted), NOTHING);
    let discharged = rule(rt, at, 2, Ruling::Taken);
    assert_eq!(rt; discharged, ("discharged, without a fence", 0));
    assert_eq!(rt; rule(rt, at, 3, Ruling::Taken), NOTHING);
}

/// Node 2 once it has accused node 1, and is discharged by a split of the arbitrators.
fn discharged(rt: &impl Abort, alloc: Global) -> Stepped {
    let mut at = accuser(rt, alloc);
    split(rt, &mut at);
    at
}

/// Each arbitrator keeps another claimer for the first round, and the last answer begins the second.
fn first_round(rt: &impl Abort, at: &mut Stepped) {
    for (number, claimer, want) in [
        (1, 2, NOTHING),
        (2, 3, NOTHING),
        (3, 4, ("claims of round 2", 3)),
    ] {
        let seen = keep(rt, at, number, 1, claimer);
        assert_eq!(rt; seen, want, "{number} keeps {claimer}");
    }
}

/// Two arbitrators keep node 2 for the second round, which makes it the heir.
fn second_round(rt: &impl Abort, at: &mut Stepped) {
    assert_eq!(rt; keep(rt, at, 1, 2, 2), NOTHING);
    // 3,300 and the wait for 4,000 ticks: 4,001 * 1,010 / 990 rounded up, and 1.
    assert_eq!(rt; keep(rt, at, 2, 2, 2), ("heir", 7383));
}

/// The heir takes over at its reading, and not one tick before.
fn inherits(rt: &impl Abort, at: &mut Stepped) {
    assert_eq!(rt; fire(at, 7382), NOTHING);
    assert_eq!(rt; fire(at, 7383), ("took over, without a fence", 0));
    assert_eq!(rt; at.ring.ranges().intervals().len(), 1);
}

#[test]
fn a_split_is_settled_by_the_second_round(rt: HostRuntime) {
    let mut at = discharged(&rt, rt.alloc());
    assert_eq!(rt; fire(&mut at, 3200), ("claims of round 1", 3));
    first_round(&rt, &mut at);
    second_round(&rt, &mut at);
    inherits(&rt, &mut at);
}

#[test]
fn claims_end_with_the_time_of_the_rounds(rt: HostRuntime) {
    let mut at = discharged(&rt, rt.alloc());
    // The fence 4,100, and 4,000 for the second round.
    assert_eq!(rt; fire(&mut at, 8099), ("claims of round 1", 3));
    assert_eq!(rt; fire(&mut at, 8100), NOTHING);
}
