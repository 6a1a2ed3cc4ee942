ghost use Rattle.std.specs.Prelude.{◌≡◌, ◌/◌, ◌-◌, ◌^◌, min};
ghost use Rattle.std.specs.Duration.{as_nanos};

use std::time::Duration;

/// The whole milliseconds of a duration; the greatest number of the type where they are more.
pub fn milliseconds(passed: Duration) -> u64
    ensures { result ≡ min (as_nanos passed / 1_000_000) (2 ^ 64 - 1) }
{
    u64::try_from(passed.as_millis()).unwrap_or(u64::MAX)
}
