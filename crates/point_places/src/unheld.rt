ghost use Rattle.std.specs.Prelude.{◌≡◌, ◌+◌, ◌-◌, ◌++◌, [], ◌∷◌, IsTrue, IfOk, OnOk, nat_lt, if◌then◌else◌};
ghost use Rattle.std.specs.Option.{option_to_list};
ghost use Rattle.std.specs.List.{list_all};
ghost use Rattle.ring_points.specs.Ranges.{is_proper};
ghost use Rattle.ring_points.specs.Sets.{span, cut_all, minus_of};
ghost use Rattle.point_places.specs.Order.{seen};
ghost use Rattle.point_places.specs.Steps.{last_before, spans_of, less_held};

use crate::place::Place;
use crate::segments::Segment;
use fabric_terms::OutOfMemory;
use ring_points::{Interval, RangeSet, Who};
use std::alloc::Global;

/// An instance that holds points, and which.
#[derive(Drop)]
pub struct Holder {
    pub who: Who,
    pub ranges: RangeSet,
}

fn last_before(next: &[Segment]) -> u64
    ensures { result ≡ last_before next.now }
{
    match next {
        [] => u64::MAX,
        [s, ..] => s.lo.saturating_sub(1),
    }
}

/// The intervals of a place.
fn spans(alloc: Global, segments: &[Segment], place: Place) -> Result<Vec<Interval>, OutOfMemory>
    ensures { IfOk result (λ r. r.items ≡ spans_of (seen place) segments.now) }
{
    let mut spans = Vec::new(alloc);
    for (i, s) in segments.iter().enumerate() {
        if place.is(s.place) {
            spans.push(Interval {
                lo: s.lo,
                hi: last_before(&segments[i + 1..]),
            })?;
        }
    }
    Ok(spans)
}

// What stands before `j` in `i`.
fn part_before(i: Interval, j: Interval) -> Option<Interval>
    ensures { option_to_list result ≡ (if nat_lt i.lo j.lo then span i.lo (j.lo - 1) else []) }
{
    if i.lo < j.lo {
        return Some(Interval {
            lo: i.lo,
            hi: j.lo - 1,
        });
    }
    None
}

// What stands behind `j` in `i`.
fn part_behind(i: Interval, j: Interval) -> Option<Interval>
    ensures { option_to_list result ≡ span (j.hi + 1) i.hi }
{
    if j.hi < i.hi {
        return Some(Interval {
            lo: j.hi + 1,
            hi: i.hi,
        });
    }
    None
}

fn push_part(into: &mut Vec<Interval>, part: Option<Interval>) -> Result<(), OutOfMemory>
    ensures { OnOk result (into.new.items ≡ into.old.items ++ option_to_list part) }
{
    if let Some(i) = part {
        into.push(i)?;
    }
    Ok(())
}

fn push_cut(into: &mut Vec<Interval>, i: Interval, j: Interval) -> Result<(), OutOfMemory>
    ensures { OnOk result (into.new.items ≡ into.old.items ++ cut_all (i ∷ []) j) }
{
    if i.lo <= j.hi && j.lo <= i.hi {
        push_part(into, part_before(i, j))?;
        push_part(into, part_behind(i, j))
    } else {
        push_part(into, Some(i))
    }
}

fn cut(alloc: Global, intervals: &[Interval], j: Interval) -> Result<Vec<Interval>, OutOfMemory>
    ensures { IfOk result (λ r. r.items ≡ cut_all intervals.now j) }
{
    let mut left = Vec::new(alloc);
    for i in intervals {
        push_cut(&mut left, *i, j)?;
    }
    Ok(left)
}

/// The points of the first list that are not in the second.
fn minus(
    alloc: Global,
    intervals: &[Interval],
    others: &[Interval],
) -> Result<Vec<Interval>, OutOfMemory>
    ensures { IfOk result (λ r. r.items ≡ minus_of intervals.now others.now) }
{
    let mut left = Vec::from_slice(alloc, intervals)?;
    for j in others {
        left = cut(alloc, &left, *j)?;
    }
    Ok(left)
}

// The intervals of a place without what this holder holds, if it is the holder of the place.
fn less_one(
    alloc: Global,
    intervals: &[Interval],
    place: Place,
    holder: &Holder,
) -> Result<Vec<Interval>, OutOfMemory>
    ensures left { IfOk result (λ r. r.items ≡ less_held (seen place) (holder.now ∷ []) intervals.now) }
    ensures proper { IsTrue (is_proper holder.now.ranges) }
{
    let held = holder.ranges.intervals();
    if place.is(Place::With(holder.who)) {
        minus(alloc, intervals, held)
    } else {
        Ok(Vec::from_slice(alloc, intervals)?)
    }
}

/// The intervals of a place without what its holders hold.
pub fn unheld(
    alloc: Global,
    segments: &[Segment],
    holders: &[Holder],
    place: Place,
) -> Result<Vec<Interval>, OutOfMemory>
    ensures left { IfOk result (λ r. r.items ≡ less_held (seen place) holders.now (spans_of (seen place) segments.now)) }
    ensures proper { OnOk result (IsTrue (list_all (λ h. is_proper h.ranges) holders.now)) }
{
    let mut left = spans(alloc, segments, place)?;
    for holder in holders {
        left = less_one(alloc, &left, place, holder)?;
    }
    Ok(left)
}
