//! When firings are due: growing pauses without news, and a pace after news.
use fabric_terms::{Body, Command, Message, Report};
use fire_pace::{FiringPace, left_of};
use ring_points::{RangeSet, Who};
use ring_rules::Input;
use std::process::Abort;

/// A frame that says this, from node 2 to node 1.
fn frame(body: Body) -> Input {
    let from = Who {
        actor: 2,
        instance: 1,
    };
    let to = Who {
        actor: 1,
        instance: 1,
    };
    Input::Frame(Message { from, to, body })
}

fn renewal(want: bool) -> Input {
    frame(Body::Renew {
        mine: 1,
        yours: 1,
        stamp: 0,
        version: 1,
        got: 0,
        want,
        ranges: RangeSet::new(),
    })
}

/// Asserts when the next firing is due, with a lease of 1,000 ticks of which 400 are left.
fn is_due(rt: &impl Abort, pace: &FiringPace, wanted: u64) {
    assert_eq!(rt; pace.due(1000, 400), wanted);
}

#[test]
fn pauses_grow_up_to_an_eighth_of_what_is_left(rt: HostRuntime) {
    let mut pace = FiringPace::new();
    is_due(&rt, &pace, 0);
    pace.did(&Input::Fire, &[Report::Own(RangeSet::new(), None)], 0);
    is_due(&rt, &pace, 10);
    pace.did(&Input::Fire, &[], 10);
    is_due(&rt, &pace, 30);
    pace.did(&Input::Fire, &[], 30);
    is_due(&rt, &pace, 70);
    pace.did(&Input::Fire, &[], 70);
    is_due(&rt, &pace, 120);
    assert_eq!(rt; pace.due(1000, 1000), 150);
    assert_eq!(rt; pace.due(1000, 0), 75);
    assert_eq!(rt; pace.due(10, 10), 71);
}

#[test]
fn news_bring_the_pace_back(rt: HostRuntime) {
    let mut pace = FiringPace::new();
    pace.did(&Input::Fire, &[], 0);
    pace.did(&Input::Fire, &[], 10);
    pace.did(&renewal(false), &[], 12);
    is_due(&rt, &pace, 30);
    pace.did(&renewal(true), &[], 13);
    is_due(&rt, &pace, 15);
    pace.did(&Input::Do(Command::Join(2)), &[], 15);
    pace.did(&Input::Fire, &[], 15);
    is_due(&rt, &pace, 20);
    pace.did(&Input::Fire, &[], 20);
    is_due(&rt, &pace, 30);
    let acknowledged = frame(Body::RenewAck {
        mine: 1,
        yours: 1,
        stamp: 0,
        version: 1,
    });
    pace.did(&acknowledged, &[], 25);
    is_due(&rt, &pace, 30);
    pace.did(&acknowledged, &[Report::Stopped], 26);
    is_due(&rt, &pace, 25);
}

#[test]
fn what_is_left_ends_at_the_fence(rt: HostRuntime) {
    assert_eq!(rt; left_of(1000, 100, None, 5000), 1000);
    assert_eq!(rt; left_of(1000, 100, Some(5900), 5000), 800);
    assert_eq!(rt; left_of(1000, 100, Some(9000), 5000), 1000);
    assert_eq!(rt; left_of(1000, 100, Some(5050), 5000), 0);
}
