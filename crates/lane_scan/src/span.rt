ghost use Rattle.std.specs.Prelude.{◌≡◌, ◌+◌, ◌≤◌, length, max, min};
ghost use Rattle.std.specs.Simd.Lanes.{chunk};
ghost use Rattle.ring_points.specs.Distances.{ahead_of};
ghost use Rattle.lane_scan.specs.Spans.{above, greatest_of, least_of, turned};

use ring_points::HALF_RING;
use std::simd::prelude::*;

/// How far the points of a slice stand above a key, going upwards round the ring: the least and the
/// greatest.
#[derive(Clone, Copy)]
pub struct Span {
    pub least: u64,
    pub greatest: u64,
}

/// How far the point stands above the key, going upwards round the ring.
fn ahead(point: u64, key: u64) -> u64
    ensures { result ≡ ahead_of point key }
{
    point.wrapping_sub(key)
}

// A lane holds how far a point stands above the key, less half the ring. Before AVX-512 an x86 processor
// compares lanes of 64 bits only as signed numbers, and the signed order of such lanes is the order of
// how far the points stand above the key: a comparison of turned lanes then takes no turn.

/// The lanes half the ring further.
fn turn(lanes: u64x8) -> u64x8
    ensures { result ≡ turned lanes }
{
    lanes + u64x8::splat(HALF_RING)
}

/// The lanes of the eight points from this place on.
fn lanes_above(points: &[u64], at: usize, key: u64) -> u64x8
    requires { at + 8 ≤ length points.now }
    ensures { turned result ≡ above key (chunk at 8 points.now) }
{
    u64x8::from_slice(&points[at..]) - u64x8::splat(key.wrapping_add(HALF_RING))
}

/// In each lane the one that stands less above the key.
fn lesser(a: u64x8, b: u64x8) -> u64x8
    ensures { least_of (turned result) ≡ min (least_of (turned a)) (least_of (turned b)) }
{
    turn(a).simd_lt(turn(b)).select(a, b)
}

/// In each lane the one that stands more above the key.
fn greater(a: u64x8, b: u64x8) -> u64x8
    ensures { greatest_of (turned result) ≡ max (greatest_of (turned a)) (greatest_of (turned b)) }
{
    turn(a).simd_lt(turn(b)).select(b, a)
}

/// The least that a lane stands above the key.
fn least_lane(lanes: u64x8) -> u64
    ensures { result ≡ least_of (turned lanes) }
{
    let mut least = u64::MAX;
    for lane in turn(lanes).to_array() {
        least = least.min(lane);
    }
    least
}

/// The most that a lane stands above the key.
fn greatest_lane(lanes: u64x8) -> u64
    ensures { result ≡ greatest_of (turned lanes) }
{
    let mut greatest = u64::MIN;
    for lane in turn(lanes).to_array() {
        greatest = greatest.max(lane);
    }
    greatest
}

/// The span of a slice that is too short for a block of lanes.
fn short_span(points: &[u64], key: u64) -> Span
    ensures least { result.least ≡ least_of (above key points.now) }
    ensures greatest { result.greatest ≡ greatest_of (above key points.now) }
{
    let mut span = Span {
        least: u64::MAX,
        greatest: u64::MIN,
    };
    for point in points {
        let above = ahead(*point, key);
        span.least = span.least.min(above);
        span.greatest = span.greatest.max(above);
    }
    span
}

/// The span of a slice: 2^64 - 1 and 0 for an empty one.
///
/// The last eight points are a block of their own, which may share points with the block before it.
pub fn span_of(points: &[u64], key: u64) -> Span
    ensures least { result.least ≡ least_of (above key points.now) }
    ensures greatest { result.greatest ≡ greatest_of (above key points.now) }
{
    if points.len() < 8 {
        return short_span(points, key);
    }
    let mut least = lanes_above(points, points.len() - 8, key);
    let mut greatest = least;
    let mut at = 0;
    while at + 8 <= points.len() {
        let lanes = lanes_above(points, at, key);
        least = lesser(lanes, least);
        greatest = greater(greatest, lanes);
        at += 8;
    }
    Span {
        least: least_lane(least),
        greatest: greatest_lane(greatest),
    }
}
