// Pauses, and how long something lasts, in ticks.
ghost use Rattle.std.specs.Prelude.{◌≡◌, ◌≤◌};
ghost use Rattle.fabric_steward.specs.Times;

use ring_points::MAX_LEASE;

/// So many ticks later. Readings end at the greatest number.
pub fn later(reading: u64, ticks: u64) -> u64
    ensures { result ≡ Times.later reading ticks }
{
    reading.saturating_add(ticks)
}

/// The pause between two commands, at first.
pub fn first_pause(lease: u64) -> u64
    ensures { result ≡ Times.first_pause lease }
{
    1.max(lease / 4)
}

/// For how long a new manager looks before it asks: a pause less than `heal_after`.
pub fn look_time(lease: u64, heal_after: u64) -> u64
    ensures { result ≡ Times.look_time lease heal_after }
{
    heal_after.saturating_sub(first_pause(lease))
}

/// A pause is doubled up to two leases.
pub fn doubled(lease: u64, pause: u64) -> u64
    requires { lease ≤ MAX_LEASE }
    ensures { result ≡ Times.doubled lease pause }
{
    pause.min(lease) * 2
}

/// Whether so many ticks are over since a reading, if there is one.
pub fn is_over(now: u64, ticks: u64, then: Option<u64>) -> bool
    ensures { result ≡ Times.is_over now ticks then }
{
    match then {
        None => true,
        Some(then) => ticks <= now.saturating_sub(then),
    }
}

/// Whether something lasts, since a reading, for so many ticks.
pub fn lasts(now: u64, ticks: u64, then: Option<u64>) -> bool
    ensures { result ≡ Times.lasts now ticks then }
{
    match then {
        None => false,
        Some(then) => ticks <= now.saturating_sub(then),
    }
}

/// Since when it lasts, if it does now.
pub fn since(lasts: bool, now: u64, then: Option<u64>) -> Option<u64>
    ensures { result ≡ Times.since lasts now then }
{
    if !lasts {
        return None;
    }
    match then {
        None => Some(now),
        Some(then) => Some(then),
    }
}
