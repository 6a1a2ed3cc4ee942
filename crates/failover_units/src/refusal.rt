ghost use Rattle.std.specs.Prelude.{◌≡◌};
ghost use Rattle.failover_units.specs.declared.refusal.UnitRefusal.TheVariants.{OutOfMemory};

use std::alloc::AllocError;

/// Why a call on known units is refused, or a partition's command.
#[derive(Clone, Copy, Debug, PartialEq, Eq)]
pub enum UnitRefusal {
    /// The partition has a known configuration.
    Exists,
    /// The partition has no known configuration.
    NoUnit,
    /// The partition is new, and `MAX_UNITS` stand.
    Full,
    /// The node is no member of the partition's configuration.
    NotMember,
    /// Fewer fault domains have an up node than replicas are to be placed: only this many.
    TooFewDomains(u8),
    /// There was not enough memory. It may come in place of any other answer for a new partition, and of `in_range`,
    /// whose list takes memory too.
    OutOfMemory,
}

impl From<AllocError> for UnitRefusal {
    ghost from_gives = { λ _ e. e ≡ OutOfMemory };

    fn from(_error: AllocError) -> UnitRefusal {
        UnitRefusal::OutOfMemory
    }
}
