ghost use Rattle.std.specs.Prelude.{◌≡◌};
ghost use Rattle.edge_io.specs.Memory.{fresh_clock};

use crate::clock::Clock;
use std::marker::Model;

/// Readings in memory, one after another. The last one comes again and again; a clock of no readings
/// reads 0.
#[derive(Drop)]
pub struct MemClock {
    readings: Vec<u64>,
    given: usize,
    last: Option<u64>,
    falls: u64,
}

impl Model for MemClock {
    ghost use Rattle.std.specs.Prelude.{◌≤◌, drop, length, unwrap_or};
    ghost use Rattle.edge_io.specs.Memory.{ToldClock, readings_or};

    ghost Value = { ToldClock };

    ghost view = { λ a. record {
      readings = readings_or (drop a.given a.readings.items) (unwrap_or a.last 0);
      last = a.last;
      falls = a.falls;
    } };

    ghost invariant = { λ a. (a.falls ≤ a.given) × (a.given ≤ length a.readings.items) };
}

impl MemClock {
    /// These readings are to come.
    pub fn new(readings: Vec<u64>) -> Self
        ensures { result ≡ fresh_clock readings.items }
    {
        MemClock {
            readings,
            given: 0,
            last: None,
            falls: 0,
        }
    }
}

impl Clock for MemClock {
    ghost use Rattle.std.specs.Prelude.{Some};

    ghost readings = { λ c. Some c.readings };

    ghost last = { λ c. c.last };

    ghost falls = { λ c. c.falls };

    fn now(&mut self) -> u64 {
        if self.given == self.readings.len() {
            let again = self.last.unwrap_or(0);
            self.last = Some(again);
            return again;
        }
        let reading = self.readings[self.given];
        if self.last.is_some_and(|last| reading < last) {
            self.falls += 1;
        }
        self.given += 1;
        self.last = Some(reading);
        reading
    }
}
