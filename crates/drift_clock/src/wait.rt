ghost use Rattle.std.specs.Prelude.{◌≡◌, ◌≤◌};
ghost use Rattle.drift_clock.specs.Wait.{wait};

use crate::bound::Bound;
use ring_points::{MAX_DRIFT, MAX_GRAIN, MAX_READING};

/// How many ticks to wait by one clock within the bound, so that at least `x` ticks have passed on
/// every other.
///
/// It errs on the side of longer: the clock that waits may be the fastest, the other the slowest.
pub fn wait_of(bound: Bound, x: u64) -> u64
    requires drift { bound.d ≤ MAX_DRIFT }
    requires grain { bound.grain ≤ MAX_GRAIN }
    requires length { x ≤ MAX_READING }
    ensures { result ≡ wait bound x }
{
    let slowest = 1000 - bound.d;
    ((x + bound.grain) * (1000 + bound.d)).div_ceil(slowest) + bound.grain
}
