ghost use Rattle.std.specs.Prelude.{◌≡◌};
ghost use Rattle.edge_io.specs.declared.refusal.EdgeRefusal.TheVariants.{OutOfMemory};

use std::alloc::{AllocError, AllocFailed};

/// The device has failed.
#[derive(Clone, Copy, Debug, PartialEq, Eq)]
pub struct Failed;

/// Why a device refuses a call that may want memory: the device has failed, or memory has run out.
#[derive(Clone, Copy, Debug, PartialEq, Eq)]
pub enum EdgeRefusal {
    Failed,
    OutOfMemory,
}

impl From<AllocError> for EdgeRefusal {
    ghost from_gives = { λ _ refusal. refusal ≡ OutOfMemory };

    fn from(_: AllocError) -> Self {
        EdgeRefusal::OutOfMemory
    }
}

impl<T: Drop> From<AllocFailed<T>> for EdgeRefusal {
    ghost from_gives = { λ _ refusal. refusal ≡ OutOfMemory };

    fn from(_: AllocFailed<T>) -> Self {
        EdgeRefusal::OutOfMemory
    }
}
