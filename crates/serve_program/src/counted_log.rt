use door_io::ReportLog;
use serve_edge::StdoutLog;
use serve_top::Tally;
use std::rt::Clock;

/// The log of the process, whose dropped lines are counted.
#[derive(Drop)]
pub struct CountedLog<'a, R: Clock> {
    inner: StdoutLog<'a, R>,
    tally: &'a Tally,
}

impl<'a, R: Clock> CountedLog<'a, R> {
    /// The lines of this log.
    pub fn new(inner: StdoutLog<'a, R>, tally: &'a Tally) -> Self {
        CountedLog { inner, tally }
    }
}

impl<R: Clock> ReportLog for CountedLog<'_, R> {
    ghost use Rattle.std.specs.Prelude.{None};

    ghost logged = { λ l. None };

    ghost dropped = { λ l. l.inner };

    fn log(&mut self, line: &[u8]) {
        let before = self.inner.dropped();
        self.inner.log(line);
        if self.inner.dropped() != before {
            self.tally
                .count(|counters| counters.count_log_line_dropped());
        }
    }

    fn lose(&mut self) {
        self.tally
            .count(|counters| counters.count_log_line_dropped());
        self.inner.lose();
    }
}
