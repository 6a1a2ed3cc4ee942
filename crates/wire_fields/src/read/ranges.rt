// The intervals of a range set at the front of some bytes, and what follows them.

ghost use Rattle.std.specs.Prelude.{◌≤◌, ◌<◌, length, take, IfOk};
ghost use Rattle.wire_fields.specs.Readers.{Gives, interval_at, times, intervals_at, ranges_at};

use crate::not_field::NotField;
use crate::read::number::{u8_at, u64_at};
use ring_points::{Interval, MAX_INTERVALS, RangeSet};

#[tactic(auto, unfolding(crate::specs::Readers::interval_at))]
fn interval_at(bytes: &[u8]) -> Result<(Interval, &[u8]), NotField>
    ensures { Gives (λ x. (x.0, x.1.now)) result (interval_at bytes.now) }
{
    let (lo, rest) = u64_at(bytes)?;
    let (hi, rest) = u64_at(rest)?;
    Ok((Interval { lo, hi }, rest))
}

// Fills the places with intervals, one after the other.
fn fill<'a>(places: &mut [Interval], bytes: &'a [u8]) -> Result<&'a [u8], NotField>
    ensures { Gives (λ x. (places.new, x.now)) result (times (length places.old) interval_at bytes.now) }
{
    let mut rest = bytes;
    for place in places.iter_mut() {
        let (interval, after) = interval_at(rest)?;
        *place = interval;
        rest = after;
    }
    Ok(rest)
}

/// A count of at most `MAX_INTERVALS`, and as many intervals, which are put into the first places.
#[tactic(auto, unfolding(crate::specs::Readers::intervals_at, crate::specs::Readers::list_at))]
pub fn intervals_at<'a>(
    places: &mut [Interval; MAX_INTERVALS],
    bytes: &'a [u8],
) -> Result<(usize, &'a [u8]), NotField>
    ensures read { Gives (λ x. (take x.0 places.new, x.1.now)) result (intervals_at bytes.now) }
    ensures count { IfOk result (λ x. x.0 ≤ MAX_INTERVALS) }
{
    let (count, rest) = u8_at(bytes)?;
    let count = usize::from(count);
    if count > MAX_INTERVALS {
        return Err(NotField);
    }
    let rest = fill(&mut places[..count], rest)?;
    Ok((count, rest))
}

/// A range set. (A body with ranges is read without this call, which would copy them once more.)
pub fn ranges_at(bytes: &[u8]) -> Result<(RangeSet, &[u8]), NotField>
    ensures { Gives (λ x. (x.0, x.1.now)) result (ranges_at bytes.now) }
{
    let mut places = [Interval { lo: 0, hi: 0 }; MAX_INTERVALS];
    let (count, rest) = intervals_at(&mut places, bytes)?;
    match RangeSet::from_pairs(&places[..count]) {
        Some(ranges) => Ok((ranges, rest)),
        None => Err(NotField),
    }
}
