ghost use Rattle.std.specs.Prelude.{◌≡◌, ◌<◌, ◌/◌, pos, unsigned_abs, min};
ghost use Rattle.std.specs.Duration.{as_nanos};
ghost use Rattle.jiff_core.specs.DateTime.{civil_nanos};
ghost use Rattle.serve_edge.specs.Stamps;
ghost use Rattle.serve_edge.specs.Stamps.{IsStampAt, day_text, last_nanos, time_text};

use jiff_core::civil::{Date, DateTime, Time};
use std::time::Duration;

/// How many bytes the time of day has, with the blank behind it.
pub const STAMP_BYTES: usize = 25;

/// The last nanosecond of the year 9999.
const LAST_NANOS: u128 = 253_402_300_799_999_999_999;

/// The time of day in UTC, to the millisecond, and a blank: so long after the begin of 1970. Time ends with the year
/// 9999.
pub fn stamp(since: Duration) -> [u8; STAMP_BYTES]
    ensures { IsStampAt (as_nanos since) result }
{
    stamp_of(moment(since))
}

/// The moment so long after the begin of 1970.
fn moment(since: Duration) -> DateTime
    ensures { civil_nanos result ≡ pos (min (as_nanos since) last_nanos) }
{
    let nanos = since.as_nanos().min(LAST_NANOS);
    DateTime::from_nanosecond_in_range(nanos as i128)
}

/// The moment as it is written.
fn stamp_of(moment: DateTime) -> [u8; STAMP_BYTES]
    ensures { result ≡ Stamps.stamp_of moment }
{
    let [y0, y1, y2, y3, y4, m0, m1, m2, d0, d1] = day_text(moment.date);
    let [h0, h1, h2, n0, n1, n2, s0, s1, s2, i0, i1, i2] = time_text(moment.time);
    [
        y0, y1, y2, y3, y4, m0, m1, m2, d0, d1, b'T', h0, h1, h2, n0, n1, n2, s0, s1, s2, i0, i1,
        i2, b'Z', b' ',
    ]
}

/// The day as it is written.
fn day_text(date: Date) -> [u8; 10]
    ensures { result ≡ day_text (unsigned_abs date.year) date.month date.day }
{
    let year = date.year.unsigned_abs();
    let (month, day) = (u16::from(date.month), u16::from(date.day));
    [
        digit(year, 1000),
        digit(year, 100),
        digit(year, 10),
        digit(year, 1),
        b'-',
        digit(month, 10),
        digit(month, 1),
        b'-',
        digit(day, 10),
        digit(day, 1),
    ]
}

/// The time of the day as it is written, to the millisecond.
fn time_text(time: Time) -> [u8; 12]
    ensures { result ≡ time_text time.hour time.minute time.second (time.subsec_nanosecond / 1_000_000) }
{
    let (hour, minute, second) = (
        u16::from(time.hour),
        u16::from(time.minute),
        u16::from(time.second),
    );
    let milli = (time.subsec_nanosecond / 1_000_000) as u16;
    [
        digit(hour, 10),
        digit(hour, 1),
        b':',
        digit(minute, 10),
        digit(minute, 1),
        b':',
        digit(second, 10),
        digit(second, 1),
        b'.',
        digit(milli, 100),
        digit(milli, 10),
        digit(milli, 1),
    ]
}

/// The digit of a number at a unit, as it is written.
fn digit(number: u16, unit: u16) -> u8
    requires { 0 < unit }
    ensures { result ≡ Stamps.digit number unit }
{
    b'0' + (number / unit % 10) as u8
}
