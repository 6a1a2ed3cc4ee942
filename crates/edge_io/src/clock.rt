ghost use Rattle.std.specs.Prelude.{◌≡◌, ◌+◌, ℕ, List, Option, Some, if◌then◌else◌};
ghost use Rattle.edge_io.specs.Readings.{Gives, is_fall};

/// What tells the time, in ticks from a moment of its own. Nothing is said of how fast it goes.
pub trait Clock {
    /// The readings that are still to come, where it tells.
    ghost readings: { Self → Option (List ℕ) };

    /// The last reading, if there was one. Every implementation tells it.
    ghost last: { Self → Option ℕ };

    /// How often a reading was less than the one before. Every implementation tells it.
    ghost falls: { Self → ℕ };

    /// The reading, in ticks.
    fn now(&mut self) -> u64
        ensures told { Gives (readings self.old) result (readings self.new) }
        ensures last { last self.new ≡ Some result }
        ensures falls { falls self.new ≡ (if is_fall (last self.old) result then falls self.old + 1 else falls self.old) };
}
