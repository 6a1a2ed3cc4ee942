ghost use Rattle.std.specs.Prelude.{◌≡◌, ◌≤◌};
ghost use Rattle.hold_span.specs.Span.{span};

use drift_clock::Bound;
use ring_points::{MAX_DRIFT, MAX_GRAIN, MAX_LEASE, MAX_READING};

/// The greatest fence, in ticks: a lease and the time for an answer after the greatest reading.
pub const MAX_FENCE: u64 = MAX_READING + 2 * MAX_LEASE;

/// For how many ticks of its own clock a parent may serve after it asked, if the node read `now` later and its fence is
/// `fence`; 0 where nothing is promised.
///
/// It errs on the side of shorter: the parent's clock may be the slowest, the node's the fastest.
pub fn span_of(bound: Bound, fence: u64, now: u64) -> u64
    requires drift { bound.d ≤ MAX_DRIFT }
    requires grain { bound.grain ≤ MAX_GRAIN }
    requires fence { fence ≤ MAX_FENCE }
    ensures span { result ≡ span bound fence now }
{
    let left = fence.saturating_sub(now).saturating_sub(bound.grain);
    (left * (1000 - bound.d) / (1000 + bound.d)).saturating_sub(bound.grain)
}
