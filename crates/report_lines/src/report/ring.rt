// What a node tells of the ring.
ghost use Rattle.std.specs.Prelude.{◌≡◌, [], ◌∷◌, ◌++◌, codes, decimal, OnOk};
ghost use Rattle.fabric_terms.specs.declared.report.Report.{Report};
ghost use Rattle.text_fields.specs.Fields.{Gives, whole_of};
ghost use Rattle.text_fields.specs.Instances.{who_text};
ghost use Rattle.text_fields.specs.Intervals.{ranges_text};
ghost use Rattle.text_fields.specs.Numbers.{optional_text};
ghost use Rattle.text_fields.specs.Points.{point_text};
ghost use Rattle.text_fields.specs.Texts.{Keeps, spaced};
ghost use Rattle.line_format.specs.Readers.{flight_of, tookover_of, move_of, accused_of, discharged_of, heir_of};
ghost use Rattle.line_format.specs.Readers.{peer_report_of, own_of, found_of, ring_report_of};

use super::pair::{
    push_number_behind, push_optional_behind, push_point_behind, push_ranges_behind,
    push_who_behind,
};
use super::refused::why_of;
use fabric_terms::{OutOfMemory, Report};
use line_format::BadLine;
use ring_points::{MAX_COUNTER, Point, RangeSet, Who};
use text_fields::{
    BadField, after_word, last_number, last_optional, last_point, last_ranges, last_who,
    number_word, point_word, ranges_word, who_word,
};

/// What a node owns, and up to which reading.
#[tactic(auto, unfolding(line_format::specs::Readers::own_of))]
pub fn own_of(words: &[u8]) -> Result<Report, BadField>
    ensures { Gives (λ x. x) result (own_of words.now) }
{
    let (ranges, rest) = ranges_word(words)?;
    Ok(Report::Own(ranges, last_optional(rest)?))
}

#[tactic(auto, unfolding(line_format::specs::Readers::heir_of))]
fn heir_of(words: &[u8]) -> Result<Report, BadField>
    ensures { Gives (λ x. x) result (heir_of words.now) }
{
    let (who, rest) = who_word(words)?;
    Ok(Report::Heir(who, last_number(0, u64::MAX, rest)?))
}

#[tactic(auto, unfolding(line_format::specs::Readers::tookover_of))]
fn tookover_of(words: &[u8]) -> Result<Report, BadField>
    ensures { Gives (λ x. x) result (tookover_of words.now) }
{
    let (who, rest) = who_word(words)?;
    Ok(Report::TookOver(who, last_ranges(rest)?))
}

#[tactic(auto, unfolding(line_format::specs::Readers::found_of))]
fn found_of(words: &[u8]) -> Result<Report, BadField>
    ensures { Gives (λ x. x) result (found_of words.now) }
{
    let (key, rest) = point_word(words)?;
    Ok(Report::Found(Point(key), last_who(rest)?))
}

#[tactic(auto, unfolding(line_format::specs::Readers::flight_of))]
fn flight_of(words: &[u8]) -> Result<(Who, u32, RangeSet), BadField>
    ensures { Gives (λ x. (x.0, (x.1, x.2))) result (flight_of words.now) }
{
    let (who, rest) = who_word(words)?;
    let (flight, rest) = number_word(0, MAX_COUNTER, rest)?;
    Ok((who, flight as u32, last_ranges(rest)?))
}

// Points that change their place.
#[tactic(auto, unfolding(line_format::specs::Readers::move_of))]
fn move_of(words: &[u8]) -> Result<Report, BadField>
    ensures { Gives (λ x. x) result (move_of words.now) }
{
    if let Ok(rest) = after_word(b"tookover ", words) {
        tookover_of(rest)
    } else if let Ok(rest) = after_word(b"gave ", words) {
        let (to, flight, ranges) = flight_of(rest)?;
        Ok(Report::Gave(to, flight, ranges))
    } else if let Ok(rest) = after_word(b"took ", words) {
        let (from, flight, ranges) = flight_of(rest)?;
        Ok(Report::Took(from, flight, ranges))
    } else {
        let (to, flight, ranges) = flight_of(after_word(b"returned ", words)?)?;
        Ok(Report::Returned(to, flight, ranges))
    }
}

#[tactic(auto, unfolding(line_format::specs::Readers::accused_of))]
fn accused_of(words: &[u8]) -> Result<Report, BadField>
    ensures { Gives (λ x. x) result (accused_of words.now) }
{
    Ok(Report::Accused(last_who(words)?))
}

#[tactic(auto, unfolding(line_format::specs::Readers::discharged_of))]
fn discharged_of(words: &[u8]) -> Result<Report, BadField>
    ensures { Gives (λ x. x) result (discharged_of words.now) }
{
    Ok(Report::Discharged(last_who(words)?))
}

// Whom a node accused, is rid of, or will take over from.
#[tactic(auto, unfolding(line_format::specs::Readers::peer_report_of))]
fn peer_report_of(words: &[u8]) -> Result<Report, BadField>
    ensures { Gives (λ x. x) result (peer_report_of words.now) }
{
    if let Ok(rest) = after_word(b"accused ", words) {
        accused_of(rest)
    } else if let Ok(rest) = after_word(b"discharged ", words) {
        discharged_of(rest)
    } else if let Ok(rest) = after_word(b"heir ", words) {
        heir_of(rest)
    } else {
        move_of(words)
    }
}

fn stopped_of(rest: &[u8]) -> Result<Report, BadLine>
    ensures { Gives (λ x. x) result (whole_of Report.Stopped rest.now) }
{
    match rest {
        [] => Ok(Report::Stopped),
        _ => Err(BadLine),
    }
}

/// A report of the ring.
#[tactic(auto, unfolding(line_format::specs::Readers::ring_report_of))]
pub fn ring_report_of(words: &[u8]) -> Result<Report, BadLine>
    ensures { Gives (λ x. x) result (ring_report_of words.now) }
{
    if let Ok(rest) = after_word(b"own ", words) {
        Ok(own_of(rest)?)
    } else if let Ok(rest) = after_word(b"left ", words) {
        Ok(Report::LeftRing(why_of(rest)?))
    } else if let Ok(rest) = after_word(b"stopped", words) {
        stopped_of(rest)
    } else if let Ok(rest) = after_word(b"found ", words) {
        Ok(found_of(rest)?)
    } else if let Ok(rest) = after_word(b"nowhere ", words) {
        Ok(Report::Nowhere(Point(last_point(rest)?)))
    } else {
        Ok(peer_report_of(words)?)
    }
}

/// Appends a word that ends with a blank, an instance and ranges.
pub fn push_ranges_of(
    into: &mut Vec<u8>,
    word: &[u8],
    who: Who,
    ranges: &RangeSet,
) -> Result<(), OutOfMemory>
    ensures ok { OnOk result (into.new.items
        ≡ into.old.items ++ (word.now ++ spaced (who_text who ∷ ranges_text ranges.now ∷ []))) }
    ensures kept { Keeps into.old.items into.new.items }
{
    push_who_behind(into, word, who)?;
    push_ranges_behind(into, b" ", ranges)
}

/// The same with a flight's number between.
pub fn push_flight(
    into: &mut Vec<u8>,
    word: &[u8],
    who: Who,
    flight: u32,
    ranges: &RangeSet,
) -> Result<(), OutOfMemory>
    ensures ok { OnOk result (into.new.items
        ≡ into.old.items ++ (word.now ++ spaced (who_text who ∷ decimal flight ∷ ranges_text ranges.now ∷ []))) }
    ensures kept { Keeps into.old.items into.new.items }
{
    push_who_behind(into, word, who)?;
    push_number_behind(into, b" ", u64::from(flight))?;
    push_ranges_behind(into, b" ", ranges)
}

/// Appends what a node owns, and up to which reading.
pub fn push_own(
    into: &mut Vec<u8>,
    ranges: &RangeSet,
    fence: Option<u64>,
) -> Result<(), OutOfMemory>
    ensures ok { OnOk result (into.new.items
        ≡ into.old.items ++ spaced (codes "own" ∷ ranges_text ranges.now ∷ optional_text fence ∷ [])) }
    ensures kept { Keeps into.old.items into.new.items }
{
    push_ranges_behind(into, b"own ", ranges)?;
    push_optional_behind(into, b" ", fence)
}

/// Appends of whom a node is the heir, and when it takes over.
pub fn push_heir(into: &mut Vec<u8>, who: Who, ripe: u64) -> Result<(), OutOfMemory>
    ensures ok { OnOk result (into.new.items
        ≡ into.old.items ++ spaced (codes "heir" ∷ who_text who ∷ decimal ripe ∷ [])) }
    ensures kept { Keeps into.old.items into.new.items }
{
    push_who_behind(into, b"heir ", who)?;
    push_number_behind(into, b" ", ripe)
}

/// Appends the holder of a point.
pub fn push_found(into: &mut Vec<u8>, key: Point, who: Who) -> Result<(), OutOfMemory>
    ensures ok { OnOk result (into.new.items
        ≡ into.old.items ++ spaced (codes "found" ∷ point_text key.0 ∷ who_text who ∷ [])) }
    ensures kept { Keeps into.old.items into.new.items }
{
    push_point_behind(into, b"found ", key.0)?;
    push_who_behind(into, b" ", who)
}

/// Appends that no way to a point is known.
pub fn push_nowhere(into: &mut Vec<u8>, key: Point) -> Result<(), OutOfMemory>
    ensures ok { OnOk result (into.new.items ≡ into.old.items ++ spaced (codes "nowhere" ∷ point_text key.0 ∷ [])) }
    ensures kept { Keeps into.old.items into.new.items }
{
    push_point_behind(into, b"nowhere ", key.0)
}
