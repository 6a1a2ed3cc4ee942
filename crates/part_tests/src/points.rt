use crate::rows::agree;
use ring_points::{Interval, Point, RangeSet, TooMany, distance, nearer};
use std::process::Abort;

fn span(lo: u64, hi: u64) -> Interval {
    Interval { lo, hi }
}

fn set(rt: &impl Abort, pairs: &[Interval]) -> RangeSet {
    RangeSet::from_pairs(pairs).expect(rt, "the intervals of a set")
}

fn are(rt: &impl Abort, found: &RangeSet, want: &[Interval]) {
    assert_eq!(rt; found.intervals(), want);
}

/// The distance of two points, from either.
fn distances(a: u64, b: u64) -> [u64; 2] {
    let (a, b) = (Point(a), Point(b));
    [distance(a, b), distance(b, a)]
}

#[test]
fn distances_go_the_shorter_way(rt: HostRuntime) {
    let rows = [
        (distances(0, 0), [0; 2]),
        (distances(3, 10), [7; 2]),
        (distances(0, u64::MAX), [1; 2]),
        (distances(0, 1 << 63), [1 << 63; 2]),
        (
            distances(1, 0xc000_0000_0000_0000),
            [0x4000_0000_0000_0001; 2],
        ),
    ];
    agree(&rt, &rows);
}

/// Which of 0 and its opposite point is nearer to this one: whether 0, and whether the other.
fn nearest(p: u64) -> [bool; 2] {
    let (p, low, high) = (Point(p), Point(0), Point(1 << 63));
    [nearer(p, low, high), nearer(p, high, low)]
}

#[test]
fn the_lower_of_two_equally_far_is_nearer(rt: HostRuntime) {
    let rows = [
        (nearest(0x4000_0000_0000_0000), [true, false]),
        (nearest(0x4000_0000_0000_0001), [false, true]),
        (nearest(0xbfff_ffff_ffff_ffff), [false, true]),
        (nearest(0xc000_0000_0000_0000), [true, false]),
    ];
    agree(&rt, &rows);
}

/// The part of the ring that is nearer to the opposite point than to 0.
fn far_half(rt: &impl Abort) -> RangeSet {
    let part = RangeSet::whole().nearer_part(Point(0), Point(1 << 63));
    part.expect(rt, "room")
}

#[test]
fn half_of_the_ring_is_nearer_to_the_opposite_point(rt: HostRuntime) {
    let want = [span(0x4000_0000_0000_0001, 0xbfff_ffff_ffff_ffff)];
    are(&rt, &far_half(&rt), &want);
}

#[test]
fn the_other_half_of_the_ring_stands_across_0(rt: HostRuntime) {
    let rest = RangeSet::whole().minus(&far_half(&rt)).expect(&rt, "room");
    let want = [
        span(0, 0x4000_0000_0000_0000),
        span(0xc000_0000_0000_0000, u64::MAX),
    ];
    are(&rt, &rest, &want);
}

fn union_of(rt: &impl Abort, one: &RangeSet, other: Interval) -> RangeSet {
    one.union(&set(rt, &[other])).expect(rt, "room")
}

#[test]
fn touching_intervals_are_joined(rt: HostRuntime) {
    let union = union_of(&rt, &set(&rt, &[span(0, 4)]), span(5, 9));
    are(&rt, &union, &[span(0, 9)]);
    are(&rt, &union.copy(), &[span(0, 9)]);
}

/// A set of 32 intervals of two points each, from 0 on.
fn full(rt: &impl Abort) -> RangeSet {
    let mut full = RangeSet::new();
    for i in 0..32 {
        full = union_of(rt, &full, span(4 * i, 4 * i + 1));
    }
    full
}

#[test]
fn a_33rd_interval_is_too_many(rt: HostRuntime) {
    let full = full(&rt);
    assert_eq!(rt; full.intervals().len(), 32);
    let more = set(&rt, &[span(200, 201)]);
    assert!(rt; matches!(full.union(&more), Err(TooMany)));
}

#[test]
fn another_interval_has_room_where_one_goes(rt: HostRuntime) {
    let (more, first) = (set(&rt, &[span(200, 201)]), set(&rt, &[span(0, 1)]));
    let moved = full(&rt).union_without(&more, &first).expect(&rt, "room");
    let found = (
        moved.intervals().len(),
        moved.contains(Point(201)),
        moved.contains(Point(1)),
    );
    assert_eq!(rt; found, (32, true, false));
}

#[test]
fn what_meets_an_interval_is_cut_to_it(rt: HostRuntime) {
    let middle = full(&rt).meet(&set(&rt, &[span(5, 9)])).expect(&rt, "room");
    are(&rt, &middle, &[span(5, 5), span(8, 9)]);
}

fn is_set(pairs: &[Interval]) -> bool {
    RangeSet::from_pairs(pairs).is_some()
}

#[test]
fn only_the_intervals_of_a_set_are_read(rt: HostRuntime) {
    let rows = [
        (is_set(&[]), true),
        (is_set(&[span(7, 7)]), true),
        (is_set(&[span(0, 4), span(6, u64::MAX)]), true),
        (is_set(&[span(0, 4), span(5, 9)]), false),
        (is_set(&[span(6, 9), span(0, 4)]), false),
        (is_set(&[span(0, 4), span(2, 9)]), false),
        (is_set(&[span(5, 4)]), false),
        (is_set(&[span(0, u64::MAX), span(2, 3)]), false),
    ];
    agree(&rt, &rows);
}
