// Two texts, one behind the other.
ghost use Rattle.std.specs.Prelude.{◌≡◌, ◌++◌, decimal, OnOk};
ghost use Rattle.text_fields.specs.Instances.{who_text};
ghost use Rattle.text_fields.specs.Intervals.{ranges_text};
ghost use Rattle.text_fields.specs.Numbers.{optional_text};
ghost use Rattle.text_fields.specs.Points.{point_text};
ghost use Rattle.text_fields.specs.Texts.{Keeps};

use fabric_terms::OutOfMemory;
use ring_points::{RangeSet, Who};
use text_fields::{push_bytes, push_number, push_optional, push_point, push_ranges, push_who};

/// Appends bytes behind a word.
pub fn push_behind(into: &mut Vec<u8>, word: &[u8], bytes: &[u8]) -> Result<(), OutOfMemory>
    ensures ok { OnOk result (into.new.items ≡ into.old.items ++ (word.now ++ bytes.now)) }
    ensures kept { Keeps into.old.items into.new.items }
{
    push_bytes(into, word)?;
    push_bytes(into, bytes)
}

/// Appends a number behind a word.
pub fn push_number_behind(into: &mut Vec<u8>, word: &[u8], n: u64) -> Result<(), OutOfMemory>
    ensures ok { OnOk result (into.new.items ≡ into.old.items ++ (word.now ++ decimal n)) }
    ensures kept { Keeps into.old.items into.new.items }
{
    push_bytes(into, word)?;
    push_number(into, n)
}

/// Appends ranges behind a word.
pub fn push_ranges_behind(
    into: &mut Vec<u8>,
    word: &[u8],
    ranges: &RangeSet,
) -> Result<(), OutOfMemory>
    ensures ok { OnOk result (into.new.items ≡ into.old.items ++ (word.now ++ ranges_text ranges.now)) }
    ensures kept { Keeps into.old.items into.new.items }
{
    push_bytes(into, word)?;
    push_ranges(into, ranges.intervals())
}

/// Appends a number behind a word, or a dash where there is none.
pub fn push_optional_behind(
    into: &mut Vec<u8>,
    word: &[u8],
    n: Option<u64>,
) -> Result<(), OutOfMemory>
    ensures ok { OnOk result (into.new.items ≡ into.old.items ++ (word.now ++ optional_text n)) }
    ensures kept { Keeps into.old.items into.new.items }
{
    push_bytes(into, word)?;
    push_optional(into, n)
}

/// Appends a point behind a word.
pub fn push_point_behind(into: &mut Vec<u8>, word: &[u8], point: u64) -> Result<(), OutOfMemory>
    ensures ok { OnOk result (into.new.items ≡ into.old.items ++ (word.now ++ point_text point)) }
    ensures kept { Keeps into.old.items into.new.items }
{
    push_bytes(into, word)?;
    push_point(into, point)
}

/// Appends an instance behind a word.
pub fn push_who_behind(into: &mut Vec<u8>, word: &[u8], who: Who) -> Result<(), OutOfMemory>
    ensures ok { OnOk result (into.new.items ≡ into.old.items ++ (word.now ++ who_text who)) }
    ensures kept { Keeps into.old.items into.new.items }
{
    push_bytes(into, word)?;
    push_who(into, who)
}
