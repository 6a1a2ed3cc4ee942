ghost use Rattle.std.specs.Prelude.{◌≡◌};

use crate::log_output::LogOutput;
use crate::time_of_day::{STAMP_BYTES, stamp};
use door_io::ReportLog;
use log_lines::Pushed;
use std::marker::Model;
use std::rt::Clock;
use std::time::{Duration, SystemTime, UNIX_EPOCH};

/// The log of a served process: each line stands behind the time of day. Contracts see how many lines were dropped.
#[derive(Drop)]
pub struct StdoutLog<'a, R: Clock> {
    rt: &'a R,
    output: &'a LogOutput<'a>,
    dropped: u64,
}

impl<'a, R: Clock> Model for StdoutLog<'a, R> {
    ghost use Rattle.std.specs.Prelude.{ℕ};

    ghost Value = { ℕ };

    ghost view = { λ l. l.dropped };
}

impl<'a, R: Clock> StdoutLog<'a, R> {
    /// No line was dropped.
    pub fn new(rt: &'a R, output: &'a LogOutput<'a>) -> Self
        ensures { result ≡ 0 }
    {
        StdoutLog {
            rt,
            output,
            dropped: 0,
        }
    }
}

impl<R: Clock> StdoutLog<'_, R> {
    /// How many lines were dropped.
    pub fn dropped(&self) -> u64
        ensures { result ≡ self.now }
    {
        self.dropped
    }

    /// Writes what waits, as far as the output takes it at once: the process ends.
    pub fn finish(&mut self)
        ensures { self.new ≡ self.old }
    {
        self.output.write_ready();
    }

    /// The time of day; the first one of all where the machine does not know it.
    fn time(&self) -> [u8; STAMP_BYTES] {
        let now = SystemTime::now(self.rt).unwrap_or(UNIX_EPOCH);
        stamp(now.duration_since(UNIX_EPOCH).unwrap_or(Duration::ZERO))
    }
}

impl<R: Clock> ReportLog for StdoutLog<'_, R> {
    ghost use Rattle.std.specs.Prelude.{None};

    ghost logged = { λ l. None };

    ghost dropped = { λ l. l };

    fn log(&mut self, line: &[u8]) {
        let time = self.time();
        if self.output.push(&time, line) == Pushed::Dropped {
            self.dropped = self.dropped.saturating_add(1);
        }
    }

    fn lose(&mut self) {
        self.dropped = self.dropped.saturating_add(1);
    }
}
