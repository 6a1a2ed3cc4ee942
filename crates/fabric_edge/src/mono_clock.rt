ghost use Rattle.std.specs.Prelude.{◌≡◌};

use crate::boot_clock::BootClock;
use crate::ticks::milliseconds;
use edge_io::Clock;
use std::marker::Model;
use std::time::Duration;

/// The machine's clock that never goes back and goes on while the machine is suspended, in milliseconds since this
/// value was made. Where the machine cannot read it, the last reading comes again. Where it could not as this value was
/// made, the time is counted from the first reading. Contracts see the last reading.
#[derive(Drop)]
pub struct MonoClock<'a, R: BootClock> {
    rt: &'a R,
    made: Option<Duration>,
    last: Option<u64>,
}

impl<'a, R: BootClock> Model for MonoClock<'a, R> {
    ghost use Rattle.std.specs.Prelude.{ℕ, Option};

    ghost Value = { Option ℕ };

    ghost view = { λ a. a.last };
}

impl<'a, R: BootClock> MonoClock<'a, R> {
    /// It has given no reading yet.
    pub fn new(rt: &'a R) -> Self
        ensures { result ≡ None }
    {
        MonoClock {
            rt,
            made: rt.since_boot(),
            last: None,
        }
    }
}

/// The milliseconds from one reading of the machine's clock to another; None where one is missing.
fn passed(from: Option<Duration>, to: Option<Duration>) -> Option<u64> {
    Some(milliseconds(to?.saturating_sub(from?)))
}

impl<R: BootClock> Clock for MonoClock<'_, R> {
    ghost use Rattle.std.specs.Prelude.{None};

    ghost readings = { λ c. None };

    ghost last = { λ c. c };

    ghost falls = { λ c. 0 };

    fn now(&mut self) -> u64 {
        let read = self.rt.since_boot();
        if self.made.is_none() {
            self.made = read;
        }
        let least = self.last.unwrap_or(0);
        let reading = passed(self.made, read).unwrap_or(least).max(least);
        self.last = Some(reading);
        reading
    }
}
