ghost use Rattle.std.specs.Prelude.{◌≡◌, ◌++◌, OnOk};
ghost use Rattle.fabric_terms.specs.Ranges.{IsSpan, AreRanges};
ghost use Rattle.text_fields.specs.Fields.{Gives, last, word_of};
ghost use Rattle.text_fields.specs.Inverses.{IsField, IsRest, EndsList};
ghost use Rattle.text_fields.specs.Lists.{list_at};
ghost use Rattle.text_fields.specs.Intervals.{interval_at, interval_text, span_of, ranges_at, ranges_text};
ghost use Rattle.text_fields.specs.Texts.{Keeps};

use crate::bad_field::BadField;
use crate::point::{point_at, push_point};
use crate::word::{after_word, push_bytes};
use arrayvec::ArrayVec;
use fabric_terms::OutOfMemory;
use ring_points::{Interval, MAX_INTERVALS, RangeSet};

// Two points with a dash between, whichever is the lower, and what follows them.
#[tactic(auto, unfolding(crate::specs::Intervals::interval_at))]
fn interval_at(bytes: &[u8]) -> Result<(Interval, &[u8]), BadField>
    ensures { Gives (λ x. (x.0, x.1.now)) result (interval_at bytes.now) }
{
    let (lo, rest) = point_at(bytes)?;
    let (hi, rest) = point_at(after_word(b"-", rest)?)?;
    Ok((Interval { lo, hi }, rest))
}

/// The points from a first to a last one, which is not below it. Nothing follows them.
pub fn last_span(bytes: &[u8]) -> Result<Interval, BadField>
    ensures { Gives (λ x. x) result (span_of bytes.now) }
{
    match interval_at(bytes)? {
        (span, []) if span.lo <= span.hi => Ok(span),
        _ => Err(BadField),
    }
}

// Intervals in any order, joined by commas, or a dash where there are none.
fn intervals_at(bytes: &[u8]) -> Result<(ArrayVec<Interval, MAX_INTERVALS>, &[u8]), BadField>
    ensures { Gives (λ x. (x.0.items, x.1.now)) result (list_at interval_at 31 bytes.now) }
{
    let mut intervals = ArrayVec::new();
    if let Ok(rest) = after_word(b"-", bytes) {
        return Ok((intervals, rest));
    }
    let (first, mut rest) = interval_at(bytes)?;
    intervals.push(first);
    while let Ok(more) = after_word(b",", rest) {
        if intervals.len() == MAX_INTERVALS {
            return Err(BadField);
        }
        let (next, after) = interval_at(more)?;
        intervals.push(next);
        rest = after;
    }
    Ok((intervals, rest))
}

// Ranges, and what follows them. What is no list of a range set is refused.
#[tactic(auto, unfolding(crate::specs::Intervals::ranges_at))]
fn ranges_at(bytes: &[u8]) -> Result<(RangeSet, &[u8]), BadField>
    ensures { Gives (λ x. (x.0, x.1.now)) result (ranges_at bytes.now) }
{
    let (intervals, rest) = intervals_at(bytes)?;
    match RangeSet::from_pairs(intervals.as_slice()) {
        Some(ranges) => Ok((ranges, rest)),
        None => Err(BadField),
    }
}

/// Ranges and the blank behind them, and what follows. What is no list of a range set is refused.
pub fn ranges_word(bytes: &[u8]) -> Result<(RangeSet, &[u8]), BadField>
    ensures { Gives (λ x. (x.0, x.1.now)) result (word_of ranges_at bytes.now) }
{
    let (ranges, rest) = ranges_at(bytes)?;
    Ok((ranges, after_word(b" ", rest)?))
}

/// Ranges that nothing follows.
pub fn last_ranges(bytes: &[u8]) -> Result<RangeSet, BadField>
    ensures { Gives (λ x. x) result (last ranges_at bytes.now) }
{
    match ranges_at(bytes)? {
        (ranges, []) => Ok(ranges),
        _ => Err(BadField),
    }
}

fn push_interval(into: &mut Vec<u8>, i: Interval) -> Result<(), OutOfMemory>
    ensures ok { OnOk result (into.new.items ≡ into.old.items ++ interval_text i) }
    ensures kept { Keeps into.old.items into.new.items }
{
    push_point(into, i.lo)?;
    push_bytes(into, b"-")?;
    push_point(into, i.hi)
}

/// Appends ranges, joined by commas, or a dash where there are none.
pub fn push_ranges(into: &mut Vec<u8>, ranges: &[Interval]) -> Result<(), OutOfMemory>
    ensures ok { OnOk result (into.new.items ≡ into.old.items ++ ranges_text ranges.now) }
    ensures kept { Keeps into.old.items into.new.items }
{
    match ranges {
        [] => push_bytes(into, b"-"),
        [first, more @ ..] => {
            push_interval(into, *first)?;
            for i in more {
                push_bytes(into, b",")?;
                push_interval(into, *i)?;
            }
            Ok(())
        }
    }
}

/// Ranges have one text, and nothing else is read as them; a span is ranges of one interval.
pub fn ranges_have_one_text()
    ensures ranges { IsField ranges_at AreRanges ranges_text EndsList }
    ensures span { IsRest span_of IsSpan interval_text }
{}
