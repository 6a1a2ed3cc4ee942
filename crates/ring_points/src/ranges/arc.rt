ghost use Rattle.std.specs.Prelude.{◌≡◌, ◌≢◌, ◌<◌, IsTrue};
ghost use Rattle.ring_points.specs.Ranges.{rises_from};
ghost use Rattle.ring_points.specs.Sets.{arc, nearer_arc};

use super::RangeSet;
use crate::interval::Interval;
use crate::point::{HALF_RING, Point};
use arrayvec::ArrayVec;

/// The points from `lo` upwards to `hi`, maybe across 0.
fn arc(lo: u64, hi: u64) -> RangeSet
    requires { IsTrue (rises_from 0 (arc lo hi)) }
    ensures { result ≡ arc lo hi }
{
    let mut intervals = ArrayVec::new();
    if lo <= hi {
        intervals.push(Interval { lo, hi });
    } else {
        intervals.push(Interval { lo: 0, hi });
        intervals.push(Interval { lo, hi: u64::MAX });
    }
    RangeSet { intervals }
}

/// The points that are nearer to `other` than to `mine`: about half of the ring, with `other` in the
/// middle. Where both are equally far, the lower of the two has the point.
pub fn nearer_arc(mine: Point, other: Point) -> RangeSet
    requires { mine.0 ≢ other.0 }
    ensures { result ≡ nearer_arc mine.0 other.0 }
{
    let ahead = other.0.wrapping_sub(mine.0);
    let (first, last) = if other.0 < mine.0 {
        (ahead - ahead / 2, HALF_RING + ahead / 2)
    } else {
        (ahead / 2 + 1, HALF_RING + (ahead - 1) / 2)
    };
    arc(mine.0.wrapping_add(first), mine.0.wrapping_add(last))
}
