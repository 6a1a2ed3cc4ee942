//! Spans by hand: (fence - now - grain)(1000 - d) / (1000 + d), rounded down, less the grain.
ghost use Rattle.std.specs.Prelude.{◌≤◌};

use drift_clock::Bound;
use hold_span::{MAX_FENCE, span_of};
use ring_points::{MAX_DRIFT, MAX_GRAIN};
use std::process::Abort;

/// Asserts that the span from `now` to this fence is as wanted.
fn is_span(rt: &impl Abort, bound: Bound, fence: u64, now: u64, wanted: u64)
    requires drift { bound.d ≤ MAX_DRIFT }
    requires grain { bound.grain ≤ MAX_GRAIN }
    requires fence { fence ≤ MAX_FENCE }
{
    assert_eq!(rt; span_of(bound, fence, now), wanted);
}

#[test]
fn a_span_is_shorter_than_what_is_left(rt: HostRuntime) {
    is_span(&rt, Bound { d: 10, grain: 1 }, 4100, 100, 3918);
    is_span(&rt, Bound { d: 100, grain: 0 }, 1100, 0, 900);
    is_span(&rt, Bound { d: 0, grain: 0 }, 1100, 100, 1000);
}

#[test]
fn nothing_is_promised_near_the_fence(rt: HostRuntime) {
    let bound = Bound { d: 10, grain: 5 };
    is_span(&rt, bound, 1000, 1000, 0);
    is_span(&rt, bound, 1000, 2000, 0);
    is_span(&rt, bound, 1010, 1000, 0);
    is_span(&rt, bound, 1011, 1000, 0);
    is_span(&rt, bound, 1012, 1000, 1);
}
