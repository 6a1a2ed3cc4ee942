ghost use Rattle.std.specs.Prelude.{◌≡◌, ◌++◌, IfOk, OnOk, None};
ghost use Rattle.point_places.specs.Segments.{spot_in, nowhere, repeats};
ghost use Rattle.point_places.specs.Steps.{rest_after, put_interval, put_all, tidied};

use crate::place::Place;
use fabric_terms::OutOfMemory;
use ring_points::{Interval, Who};
use std::alloc::Global;
use std::default::Default;

/// The points from `lo` up to where the next segment begins, or to the last point of the ring.
#[derive(Clone, Copy, Debug)]
pub struct Segment {
    pub lo: u64,
    pub place: Place,
}

/// The place of a point.
fn spot_at(segments: &[Segment], p: u64) -> Place
    ensures { result ≡ spot_in nowhere segments.now p }
{
    let mut place = Place::With(Who::default());
    for s in segments {
        if s.lo <= p {
            place = s.place;
        }
    }
    place
}

/// What comes behind the point `hi`.
fn push_rest(
    into: &mut Vec<Segment>,
    alloc: Global,
    old: &[Segment],
    hi: u64,
) -> Result<(), OutOfMemory>
    ensures { OnOk result (into.new.items ≡ into.old.items ++ rest_after old.now hi) }
{
    match hi.checked_add(1) {
        None => Ok(()),
        Some(next) => {
            let above: Vec<Segment> = old.iter().copied().filter(|s| s.lo > next).collect(alloc)?;
            into.push(Segment {
                lo: next,
                place: spot_at(old, next),
            })?;
            into.extend_from_slice(&above)?;
            Ok(())
        }
    }
}

/// The segments where the points of the interval have this place now.
fn put(
    alloc: Global,
    old: &[Segment],
    i: Interval,
    place: Place,
) -> Result<Vec<Segment>, OutOfMemory>
    ensures { IfOk result (λ r. r.items ≡ put_interval old.now i place) }
{
    let mut new: Vec<Segment> = old.iter().copied().filter(|s| s.lo < i.lo).collect(alloc)?;
    new.push(Segment { lo: i.lo, place })?;
    push_rest(&mut new, alloc, old, i.hi)?;
    Ok(new)
}

/// The segments where the points of all intervals have this place now. Neighbours may have the same place.
pub fn put_all(
    alloc: Global,
    old: &[Segment],
    intervals: &[Interval],
    place: Place,
) -> Result<Vec<Segment>, OutOfMemory>
    ensures { IfOk result (λ r. r.items ≡ put_all old.now intervals.now place) }
{
    let mut new = Vec::from_slice(alloc, old)?;
    for i in intervals {
        new = put(alloc, &new, *i, place)?;
    }
    Ok(new)
}

/// Whether the place is that of the segment before.
fn is_repeated(before: Option<Place>, place: Place) -> bool
    ensures { result ≡ repeats before place }
{
    match before {
        None => false,
        Some(before) => before.is(place),
    }
}

/// The segments without those that have the place of the segment before.
pub fn tidied(alloc: Global, segments: &[Segment]) -> Result<Vec<Segment>, OutOfMemory>
    ensures { IfOk result (λ r. r.items ≡ tidied None segments.now) }
{
    let mut kept = Vec::new(alloc);
    let mut before: Option<Place> = None;
    for s in segments {
        if !is_repeated(before, s.place) {
            kept.push(*s)?;
            before = Some(s.place);
        }
    }
    Ok(kept)
}
