ghost use Rattle.std.specs.Prelude.{◌≡◌, ℕ, List, Option};
ghost use Rattle.edge_io.specs.Plan.{counted};
ghost use Rattle.door_io.specs.Logs.{LogsOrDrops};

/// Where the lines of a log go. It does not wait for who reads them.
pub trait ReportLog {
    /// The lines that are in the log, in order, where it tells.
    ghost logged: { Self → Option (List (List ℕ)) };

    /// How many lines were dropped. The count ends at the greatest number of 64 bits.
    ghost dropped: { Self → ℕ };

    /// Puts the line into the log, or drops it.
    fn log(&mut self, line: &[u8])
        ensures { LogsOrDrops line.now (logged self.old) (logged self.new) (dropped self.old) (dropped self.new) };

    /// Counts a line as dropped that could not be made.
    fn lose(&mut self)
        ensures logged { logged self.new ≡ logged self.old }
        ensures counted { dropped self.new ≡ counted (dropped self.old) };
}
