ghost use Rattle.std.specs.Prelude.{◌≡◌, ◌≢◌, ℕ, ◌^◌, ◌<◌, not, ◌||◌, ◌&&◌, [], IsTrue, IfOk, IfSome, is_err, is_some};
ghost use Rattle.ring_points.specs.Ranges.{in_ranges, whole_ring, fits, rises_from, is_proper};
ghost use Rattle.ring_points.specs.Distances.{is_nearer};
ghost use Rattle.ring_points.specs.Sets.{union_of, minus_of, meet_of, nearer_part_of};

mod arc;
mod sweep;

use crate::interval::Interval;
use crate::limits::MAX_INTERVALS;
use crate::point::Point;
use arc::nearer_arc;
use arrayvec::ArrayVec;
use std::marker::Model;
use sweep::{Rule, Sets, sweep};

/// A result would need more than 32 intervals.
#[derive(Clone, Copy, Debug, PartialEq, Eq)]
pub struct TooMany;

/// A set of points, as at most 32 intervals in rising order with at least one point missing between
/// neighbours. Contracts see it as that list. A range across 0 is two intervals.
#[derive(Drop)]
pub struct RangeSet {
    intervals: ArrayVec<Interval, MAX_INTERVALS>,
}

impl Model for RangeSet {
    ghost use Rattle.std.specs.Prelude.{List, IsTrue};
    ghost use Rattle.ring_points.specs.declared.interval.Interval.{Interval};
    ghost use Rattle.ring_points.specs.Ranges.{is_proper};

    ghost Value = { List Interval };

    ghost view = { λ a. a.intervals.items };

    ghost invariant = { λ a. IsTrue (is_proper a.intervals.items) };
}

/// Whether no interval ends before it begins, and a point is missing before each but the first.
fn is_rising(pairs: &[Interval]) -> bool
    ensures { result ≡ rises_from 0 pairs.now }
{
    let mut least = 0;
    for pair in pairs {
        if u128::from(pair.lo) < least || pair.hi < pair.lo {
            return false;
        }
        least = u128::from(pair.hi) + 2;
    }
    true
}

impl RangeSet {
    /// No point.
    pub fn new() -> Self
        ensures { result ≡ [] }
    {
        RangeSet {
            intervals: ArrayVec::new(),
        }
    }

    /// Every point of the ring.
    pub fn whole() -> Self
        ensures { result ≡ whole_ring }
    {
        let mut intervals = ArrayVec::new();
        intervals.push(Interval {
            lo: 0,
            hi: u64::MAX,
        });
        RangeSet { intervals }
    }

    /// The set with these intervals. It is `None` exactly where they are not the list of a set: more
    /// than 32, out of order, not apart by a point, or one that ends before it begins.
    pub fn from_pairs(pairs: &[Interval]) -> Option<RangeSet>
        ensures list { IfSome result (λ r. r ≡ pairs.now) }
        ensures proper { is_some result ≡ is_proper pairs.now }
    {
        if pairs.len() > MAX_INTERVALS || !is_rising(pairs) {
            return None;
        }
        let mut intervals = ArrayVec::new();
        for pair in pairs {
            intervals.push(*pair);
        }
        Some(RangeSet { intervals })
    }

    /// The intervals, rising.
    pub fn intervals(&self) -> &[Interval]
        ensures value { result.now ≡ self.now }
        ensures proper { IsTrue (is_proper self.now) }
    {
        self.intervals.as_slice()
    }

    /// Whether the set has the point.
    pub fn contains(&self, p: Point) -> bool
        ensures { result ≡ in_ranges p.0 self.now }
    {
        self.intervals.iter().any(|i| i.lo <= p.0 && p.0 <= i.hi)
    }

    /// The points that are in one of the two sets. It is `TooMany` where the result needs more than 32 intervals.
    pub fn union(&self, other: &RangeSet) -> Result<RangeSet, TooMany>
        ensures points { IfOk result (λ r. (p : ℕ) → in_ranges p r ≡ (in_ranges p self.now || in_ranges p other.now)) }
        ensures ok { IfOk result (λ r. r ≡ union_of self.now other.now) }
        ensures too_many { is_err result ≡ not (fits (union_of self.now other.now)) }
    {
        self.union_without(other, &RangeSet::new())
    }

    /// The points of this set that are not in the other. It is `TooMany` where the result needs more than 32 intervals.
    pub fn minus(&self, other: &RangeSet) -> Result<RangeSet, TooMany>
        ensures points { IfOk result (λ r. (p : ℕ) →
            in_ranges p r ≡ (in_ranges p self.now && not (in_ranges p other.now))) }
        ensures ok { IfOk result (λ r. r ≡ minus_of self.now other.now) }
        ensures too_many { is_err result ≡ not (fits (minus_of self.now other.now)) }
    {
        self.union_without(&RangeSet::new(), other)
    }

    /// The points that are in one of the first two sets and not in the third. It is `TooMany` where the
    /// result needs more than 32 intervals, however many the union alone would need.
    pub fn union_without(&self, other: &RangeSet, without: &RangeSet) -> Result<RangeSet, TooMany>
        ensures points { IfOk result (λ r. (p : ℕ) →
            in_ranges p r ≡ ((in_ranges p self.now || in_ranges p other.now) && not (in_ranges p without.now))) }
        ensures ok { IfOk result (λ r. r ≡ minus_of (union_of self.now other.now) without.now) }
        ensures too_many { is_err result ≡ not (fits (minus_of (union_of self.now other.now) without.now)) }
    {
        sweep(Sets {
            rule: Rule::Either,
            first: self.intervals(),
            second: other.intervals(),
            without: without.intervals(),
        })
    }

    /// The points that are in both sets. It is `TooMany` where the result needs more than 32 intervals.
    pub fn meet(&self, other: &RangeSet) -> Result<RangeSet, TooMany>
        ensures points { IfOk result (λ r. (p : ℕ) → in_ranges p r ≡ (in_ranges p self.now && in_ranges p other.now)) }
        ensures ok { IfOk result (λ r. r ≡ meet_of self.now other.now) }
        ensures too_many { is_err result ≡ not (fits (meet_of self.now other.now)) }
    {
        sweep(Sets {
            rule: Rule::Both,
            first: self.intervals(),
            second: other.intervals(),
            without: &[],
        })
    }

    /// The points of this set that are nearer to `other` than to `mine`, which differ. It is `TooMany`
    /// where the result needs more than 32 intervals.
    pub fn nearer_part(&self, mine: Point, other: Point) -> Result<RangeSet, TooMany>
        requires { mine.0 ≢ other.0 }
        ensures points { IfOk result (λ r. (p : ℕ) → p < 2 ^ 64 →
            in_ranges p r ≡ (in_ranges p self.now && is_nearer p other.0 mine.0)) }
        ensures ok { IfOk result (λ r. r ≡ nearer_part_of self.now mine.0 other.0) }
        ensures too_many { is_err result ≡ not (fits (nearer_part_of self.now mine.0 other.0)) }
    {
        self.meet(&nearer_arc(mine, other))
    }

    /// The same set again.
    pub fn copy(&self) -> Self
        ensures { result ≡ self.now }
    {
        let mut intervals = ArrayVec::new();
        for i in self.intervals.as_slice() {
            intervals.push(*i);
        }
        RangeSet { intervals }
    }
}
