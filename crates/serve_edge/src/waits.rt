ghost use Rattle.std.specs.Prelude.{◌≡◌, ◌-◌, min, pos};
ghost use Rattle.serve_edge.specs.Waits.{later, most_wait};

/// The reading so many ticks after another; the greatest number of the type where it is more.
pub fn later(now: u64, ticks: u64) -> u64
    ensures { result ≡ later now ticks }
{
    now.saturating_add(ticks)
}

/// How many ticks a rest lasts at most: so many as were asked for, and no more than are left until the first thing is
/// due.
pub fn rest_ticks(most: u64, due: u64, now: u64) -> u64
    ensures { result ≡ min most (due - now) }
{
    most.min(due.saturating_sub(now))
}

/// The most ticks that one call of the system waits.
const MAX_WAIT: u64 = 1_000_000_000;

/// The ticks as the system takes them. It is asked again after a longer time.
pub fn timeout(ticks: u64) -> i32
    ensures { result ≡ pos (min ticks most_wait) }
{
    ticks.min(MAX_WAIT) as i32
}
