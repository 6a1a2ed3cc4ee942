ghost use Rattle.std.specs.Prelude.{◌≡◌};
ghost use Rattle.replica_core.specs.declared.refusal.ReplicaRefusal.TheVariants.{OutOfMemory};

use ring_points::Epoch;
use std::alloc::{AllocError, AllocFailed};

/// Whether a call that was taken changed the replica.
#[derive(Clone, Copy, Debug, PartialEq, Eq)]
pub enum Done {
    /// Something changed.
    New,
    /// All that was asked for stood already.
    Held,
}

/// Why a call on a replica is refused, the first that holds. A refused call changes nothing.
#[derive(Clone, Copy, Debug, PartialEq, Eq)]
pub enum ReplicaRefusal {
    /// A greater epoch than the call's is promised: this one.
    Older(Epoch),
    /// The node is no member of the configuration.
    NotMember,
    /// Entries are missing: after this many, of its log or of those collected in the epoch.
    Gap(u32),
    /// The log has 100,000 entries.
    LogFull,
    /// Memory is short. It comes from `append` and `adopt` alone, and only where they would store an entry.
    OutOfMemory,
}

impl From<AllocError> for ReplicaRefusal {
    ghost from_gives = { λ _ refusal. refusal ≡ OutOfMemory };

    fn from(_error: AllocError) -> ReplicaRefusal {
        ReplicaRefusal::OutOfMemory
    }
}

impl<T: Drop> From<AllocFailed<T>> for ReplicaRefusal {
    ghost from_gives = { λ _ refusal. refusal ≡ OutOfMemory };

    fn from(_refused: AllocFailed<T>) -> ReplicaRefusal {
        ReplicaRefusal::OutOfMemory
    }
}
