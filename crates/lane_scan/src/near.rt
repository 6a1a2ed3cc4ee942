ghost use Rattle.std.specs.Prelude.{◌≡◌, ◌+◌, ◌<◌, ◌≤◌, length};
ghost use Rattle.std.specs.Simd.Lanes.{chunk};
ghost use Rattle.lane_scan.specs.Nearest.{FirstPlace, IsNearestPoint, hits_of, nearest_place};

use crate::span::span_of;
use ring_points::{Point, nearer};
use std::simd::prelude::*;

/// Which of the eight points from this place on are this point.
fn hits(points: &[u64], at: usize, point: u64) -> u64
    requires { at + 8 ≤ length points.now }
    ensures { result ≡ hits_of point (chunk at 8 points.now) }
{
    let lanes = u64x8::from_slice(&points[at..]);
    lanes.simd_eq(u64x8::splat(point)).to_bitmask()
}

/// The first place of this point.
fn place_of(points: &[u64], point: u64) -> Option<usize>
    ensures { FirstPlace point points.now result }
{
    let mut at = 0;
    while at + 8 <= points.len() {
        let hits = hits(points, at, point);
        if hits != 0 {
            return Some(at + hits.trailing_zeros() as usize);
        }
        at += 8;
    }
    while at < points.len() {
        if points[at] == point {
            return Some(at);
        }
        at += 1;
    }
    None
}

/// The point that is nearest to the key: the next upwards from it, or the next downwards.
fn nearest_point(points: &[u64], key: u64) -> u64
    requires { 0 < length points.now }
    ensures { IsNearestPoint key points.now result }
{
    let span = span_of(points, key);
    let upwards = key.wrapping_add(span.least);
    let downwards = key.wrapping_add(span.greatest);
    if nearer(Point(key), Point(downwards), Point(upwards)) {
        downwards
    } else {
        upwards
    }
}

/// The first place of the point that is nearest to the key: by the distance, and at equal distances the
/// lower point. None exactly where the slice is empty.
pub fn nearest(points: &[u64], key: u64) -> Option<usize>
    ensures { result ≡ nearest_place key points.now }
{
    if points.is_empty() {
        return None;
    }
    place_of(points, nearest_point(points, key))
}
