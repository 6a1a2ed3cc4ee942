ghost use Rattle.std.specs.Prelude.{◌≡◌, ℕ};

/// A policy that says how long its node stays away after its instance has left.
pub trait Returning {
    /// So many ticks.
    ghost pause: { Self → ℕ };

    /// After so many ticks the next instance begins.
    fn join_pause(&self) -> u64
        ensures { result ≡ pause self.now };
}
