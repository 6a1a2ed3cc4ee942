ghost use Rattle.std.specs.Prelude.{◌≡◌, ℕ, ◌<◌, ◌^◌, reverse, IsTrue, IfOk, MatchOption};
ghost use Rattle.ring_points.specs.declared.who.Who as whos;
ghost use Rattle.ring_points.specs.Ranges.{in_ranges};
ghost use Rattle.fabric_terms.specs.Places.{moved_to, place_after};
ghost use Rattle.fabric_terms.specs.Places as places;
ghost use Rattle.point_places.specs.Order.{seen};
ghost use Rattle.point_places.specs.Segments.{place_at, is_cut};
ghost use Rattle.point_places.specs.Spots.{moved_place};

use crate::place::Place;
use crate::segments::{Segment, put_all, tidied};
use fabric_terms::{OutOfMemory, Report};
use ring_points::{RangeSet, Who};
use std::alloc::Global;

/// The report again, if it moves points.
pub fn moving(report: &Report) -> Option<Report>
    ensures { MatchOption result
        ((who : whos.Who) (p : ℕ) (old : places.Place) → place_after who report.now p old ≡ old)
        (λ r. r ≡ report.now) }
{
    match report {
        Report::Gave(receiver, number, ranges) => {
            Some(Report::Gave(*receiver, *number, ranges.copy()))
        }
        Report::Took(giver, number, ranges) => Some(Report::Took(*giver, *number, ranges.copy())),
        Report::Returned(receiver, number, ranges) => {
            Some(Report::Returned(*receiver, *number, ranges.copy()))
        }
        Report::TookOver(victim, ranges) => Some(Report::TookOver(*victim, ranges.copy())),
        _ => None,
    }
}

// The segments where the points of the ranges have this place now.
fn put(
    alloc: Global,
    segments: &[Segment],
    place: Place,
    ranges: &RangeSet,
) -> Result<Vec<Segment>, OutOfMemory>
    requires { IsTrue (is_cut segments.now) }
    ensures cut { IfOk result (λ r. IsTrue (is_cut r.items)) }
    ensures places { IfOk result (λ r. (p : ℕ) → p < 2 ^ 64 →
        place_at r.items p ≡ moved_to (seen place) (in_ranges p ranges.now) (place_at segments.now p)) }
{
    let put = put_all(alloc, segments, ranges.intervals(), place)?;
    let tidy = tidied(alloc, &put)?;
    Ok(tidy)
}

// The segments after one move.
fn after(
    alloc: Global,
    segments: &[Segment],
    who: Who,
    report: &Report,
) -> Result<Vec<Segment>, OutOfMemory>
    requires { IsTrue (is_cut segments.now) }
    ensures cut { IfOk result (λ r. IsTrue (is_cut r.items)) }
    ensures places { IfOk result (λ r. (p : ℕ) → p < 2 ^ 64 →
        place_at r.items p ≡ place_after who report.now p (place_at segments.now p)) }
{
    match report {
        Report::Gave(receiver, number, ranges) => {
            let flight = Place::Flying {
                giver: who,
                number: *number,
                receiver: *receiver,
            };
            put(alloc, segments, flight, ranges)
        }
        Report::Took(_, _, ranges) => put(alloc, segments, Place::With(who), ranges),
        Report::Returned(_, _, ranges) => put(alloc, segments, Place::With(who), ranges),
        Report::TookOver(_, ranges) => put(alloc, segments, Place::With(who), ranges),
        _ => Ok(Vec::from_slice(alloc, segments)?),
    }
}

/// The segments after these moves, in their order.
pub fn settled(
    alloc: Global,
    segments: &[Segment],
    moves: &[(Who, Report)],
) -> Result<Vec<Segment>, OutOfMemory>
    requires { IsTrue (is_cut segments.now) }
    ensures cut { IfOk result (λ r. IsTrue (is_cut r.items)) }
    ensures places { IfOk result (λ r. (p : ℕ) → p < 2 ^ 64 →
        place_at r.items p ≡ moved_place segments.now (reverse moves.now) p) }
{
    let mut new = Vec::from_slice(alloc, segments)?;
    for (who, report) in moves {
        new = after(alloc, &new, *who, report)?;
    }
    Ok(new)
}
