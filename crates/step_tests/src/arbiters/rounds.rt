use crate::arbiters::questions::{accusation, arbitrator, claim, node};
use arbiter_core::{Answer, Arbiter};
use fabric_terms::{Body, Record};
use std::process::Abort;

// Whom the body keeps of a claim about 1.1, and in which round.
fn kept_by(rt: &impl Abort, body: &Body) -> (u8, u16) {
    match body {
        Body::Kept {
            victim,
            round,
            claimer,
        } if *victim == node(1) => (*round, claimer.actor),
        _ => panic!(rt; "nobody is kept"),
    }
}

// Whom a record keeps as the claimer, if there is one.
fn recorded(rt: &impl Abort, kept: &Option<Record>) -> Option<u16> {
    match kept {
        Some(Record::ClaimedBy { claimer, .. }) => Some(claimer.actor),
        Some(_) => panic!(rt; "another record"),
        None => None,
    }
}

/// In which round the answer to a claim about 1.1 keeps whom, and whom it records as the claimer, if it records one.
pub(crate) fn claimed(
    rt: &impl Abort,
    arbiter: &mut Arbiter,
    claimer: u16,
    round: u8,
) -> ((u8, u16), Option<u16>) {
    match &arbiter.on_frame(&claim(node(claimer), round)) {
        Ok(Answer::Reply { kept, body, .. }) => (kept_by(rt, body), recorded(rt, kept)),
        _ => panic!(rt; "no answer"),
    }
}

fn accuse(rt: &impl Abort, arbiter: &mut Arbiter) {
    let accused = accusation(node(2), arbitrator(1), node(1));
    assert!(rt; arbiter.on_frame(&accused).is_ok());
}

// The first accuser stands for round 1, and whoever claims a later round first is kept for good.
fn keeps_who_is_first(rt: &impl Abort, arbiter: &mut Arbiter) {
    for (claimer, round, wanted) in [
        (3, 1, ((1, 2), None)),
        (3, 2, ((2, 3), Some(3))),
        (2, 2, ((2, 3), None)),
    ] {
        let kept = claimed(rt, arbiter, claimer, round);
        assert_eq!(rt; kept, wanted, "{claimer} claims {round}");
    }
}

#[test]
fn keeps_the_first_claimer_of_a_round(rt: HostRuntime) {
    let mut arbiter = Arbiter::new(rt.alloc(), 1);
    accuse(&rt, &mut arbiter);
    keeps_who_is_first(&rt, &mut arbiter);
}
