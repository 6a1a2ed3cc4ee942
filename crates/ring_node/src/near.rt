ghost use Rattle.std.specs.Prelude.{◌≡◌, IfOk, is_err, not};
ghost use Rattle.ring_points.specs.Ranges.{fits};
ghost use Rattle.ring_points.specs.Sets.{nearer_arc, nearer_part_of};

use ring_points::{HALF_RING, Interval, Point, RangeSet, TooMany};

/// The half of the ring above a point.
fn half_above(mine: Point) -> RangeSet
    ensures { result ≡ nearer_arc mine.0 mine.0 }
{
    let (lo, hi) = (mine.0.wrapping_add(1), mine.0.wrapping_add(HALF_RING - 1));
    let pairs = if lo <= hi {
        RangeSet::from_pairs(&[Interval { lo, hi }])
    } else {
        let below = Interval { lo: 0, hi };
        let above = Interval { lo, hi: u64::MAX };
        RangeSet::from_pairs(&[below, above])
    };
    match pairs {
        Some(half) => half,
        None => RangeSet::new(),
    }
}

/// The points of these that are nearer to `other` than to `mine`, as the rules have them: where both are one point,
/// which no configuration allows, the half above.
pub(crate) fn nearer_part(ranges: &RangeSet, mine: Point, other: Point) -> Result<RangeSet, TooMany>
    ensures ok { IfOk result (λ r. r ≡ nearer_part_of ranges.now mine.0 other.0) }
    ensures too_many { is_err result ≡ not (fits (nearer_part_of ranges.now mine.0 other.0)) }
{
    if mine.0 == other.0 {
        ranges.meet(&half_above(mine))
    } else {
        ranges.nearer_part(mine, other)
    }
}
