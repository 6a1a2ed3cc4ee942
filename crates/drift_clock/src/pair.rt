ghost use Rattle.std.specs.Prelude.{◌≡◌, ◌≤◌, nat_lt};
ghost use Rattle.drift_clock.specs.Extremes.{is_further_ahead, is_further_behind};
ghost use Rattle.drift_clock.specs.Refusals.{fast_excess, slow_excess};

use crate::bound::{Bound, MAX_TRUE_TIME};
use ring_points::{MAX_DRIFT, MAX_GRAIN, MAX_READING};

/// A true time, and the reading that the clock shows then, in ticks.
pub type Pair = (u64, u64);

/// Whether the reading has advanced by more since the earlier pair than the fastest clock would.
pub fn too_fast(bound: Bound, now: Pair, earlier: Pair) -> bool
    requires drift { bound.d ≤ MAX_DRIFT }
    requires grain { bound.grain ≤ MAX_GRAIN }
    requires time { now.0 ≤ MAX_TRUE_TIME }
    requires reading { now.1 ≤ MAX_READING }
    requires order { earlier.0 ≤ now.0 }
    requires rise { earlier.1 ≤ now.1 }
    ensures { result ≡ nat_lt 0 (fast_excess bound now earlier) }
{
    1000 * (now.1 - earlier.1) > (1000 + bound.d) * (now.0 - earlier.0) + 1000 * bound.grain
}

/// Whether it has advanced by less than the slowest clock would.
pub fn too_slow(bound: Bound, now: Pair, earlier: Pair) -> bool
    requires drift { bound.d ≤ MAX_DRIFT }
    requires grain { bound.grain ≤ MAX_GRAIN }
    requires time { now.0 ≤ MAX_TRUE_TIME }
    requires reading { now.1 ≤ MAX_READING }
    requires order { earlier.0 ≤ now.0 }
    requires rise { earlier.1 ≤ now.1 }
    ensures { result ≡ nat_lt 0 (slow_excess bound now earlier) }
{
    (1000 - bound.d) * (now.0 - earlier.0) > 1000 * (now.1 - earlier.1) + 1000 * bound.grain
}

/// Whether the clock is further behind the fastest clock of the bound at `a` than at `b`.
pub fn further_behind(bound: Bound, a: Pair, b: Pair) -> bool
    requires drift { bound.d ≤ MAX_DRIFT }
    requires time { a.0 ≤ MAX_TRUE_TIME }
    requires reading { a.1 ≤ MAX_READING }
    requires other_time { b.0 ≤ MAX_TRUE_TIME }
    requires other_reading { b.1 ≤ MAX_READING }
    ensures { result ≡ is_further_behind bound a b }
{
    (1000 + bound.d) * b.0 + 1000 * a.1 < (1000 + bound.d) * a.0 + 1000 * b.1
}

/// Whether it is further ahead of the slowest clock of the bound at `a` than at `b`.
pub fn further_ahead(bound: Bound, a: Pair, b: Pair) -> bool
    requires drift { bound.d ≤ MAX_DRIFT }
    requires time { a.0 ≤ MAX_TRUE_TIME }
    requires reading { a.1 ≤ MAX_READING }
    requires other_time { b.0 ≤ MAX_TRUE_TIME }
    requires other_reading { b.1 ≤ MAX_READING }
    ensures { result ≡ is_further_ahead bound a b }
{
    1000 * b.1 + (1000 - bound.d) * a.0 < 1000 * a.1 + (1000 - bound.d) * b.0
}
