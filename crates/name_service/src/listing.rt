// The first names of a range: the points of a window of rows are asked at once.
ghost use Rattle.std.specs.Prelude.{◌≡◌, ◌==◌, ◌≤◌, ◌<◌, ◌*◌, ◌++◌, IfOk, OnOk, length, take, true};
ghost use Rattle.name_rules.specs.Grammar.{is_name};
ghost use Rattle.ring_points.specs.Limits.{most_listed_names};
ghost use Rattle.lane_scan.specs.Masks.{bit_of};
ghost use Rattle.name_service.specs.Stores.{AllPlaced, Marks, marked, name_if, names_in, points_in, rows_of, word_bits};

use crate::name::Name;
use crate::name_key::NameKey;
use arrayvec::ArrayVec;
use fabric_terms::OutOfMemory;
use lane_scan::{is_marked, mask_in};
use ring_points::{Interval, MAX_LISTED_NAMES};
use std::alloc::Global;
use std::collections::btree_map::Range;

/// The points of the first rows, as many as an answer has names at most.
pub(crate) fn points_of(rows: Range<'_, NameKey, Vec<u8>>) -> ArrayVec<u64, MAX_LISTED_NAMES>
    ensures { result.items ≡ take most_listed_names (points_in rows.entry) }
{
    let mut points = ArrayVec::new();
    for (place, _) in rows {
        if points.is_full() {
            break;
        }
        points.push(place.point());
    }
    points
}

/// A mask that marks the points in the range, of no more points than an answer has names: these are the bits of one
/// word.
pub(crate) fn mask_of(points: &[u64], range: &Interval) -> [u64; 1]
    requires { length points.now ≤ MAX_LISTED_NAMES }
    ensures { Marks range.now points.now result }
{
    let mut mask = [0; 1];
    mask_in(points, range.lo, range.hi, &mut mask);
    mask
}

/// Adds a name, where bit number `i` of the mask is 1.
fn push_marked(
    alloc: Global,
    mask: &[u64],
    i: usize,
    name: &[u8],
    names: &mut Vec<Name>,
) -> Result<(), OutOfMemory>
    requires place { i < word_bits * length mask.now }
    requires name { is_name name.now ≡ true }
    ensures { OnOk result (names.new.items ≡ names.old.items ++ name_if (bit_of mask.now i == 1) name.now) }
{
    if is_marked(mask, i) {
        names.push(Name::of(alloc, name)?)?;
    }
    Ok(())
}

/// The names that the mask marks, of the first rows, as many as an answer has names at most.
pub(crate) fn names_marked(
    alloc: Global,
    mask: &[u64],
    rows: Range<'_, NameKey, Vec<u8>>,
) -> Result<Vec<Name>, OutOfMemory>
    requires room { MAX_LISTED_NAMES ≤ word_bits * length mask.now }
    requires placed { AllPlaced rows }
    ensures { IfOk result (λ names. names.items ≡ marked mask.now 0 (take most_listed_names (names_in (rows_of rows.entry)))) }
{
    let mut names = Vec::new(alloc);
    let mut i = 0;
    for (place, _) in rows {
        if i == MAX_LISTED_NAMES {
            break;
        }
        push_marked(alloc, mask, i, place.name(), &mut names)?;
        i += 1;
    }
    Ok(names)
}
