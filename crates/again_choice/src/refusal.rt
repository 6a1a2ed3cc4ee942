ghost use Rattle.std.specs.Prelude.{◌≡◌};
ghost use Rattle.again_choice.specs.declared.refusal.AgainRefusal.TheVariants.{OutOfMemory as NoMemory};

use fabric_terms::OutOfMemory;
use std::alloc::{AllocError, AllocFailed};

/// Why folders do not lead to a line. A folder is named by its place among them, from 0.
#[derive(Clone, Copy, Debug, PartialEq, Eq)]
pub enum AgainRefusal {
    /// A process runs the actor of the folder: end it.
    Running(usize),
    /// The file `actor` or the records of the folder are not read.
    Read(usize),
    /// The folder is of another configuration.
    Other(usize),
    /// The folder is of an actor that an earlier one is of.
    Twice(usize),
    /// A node of the cluster has no folder.
    MissingNode(u16),
    /// An arbitrator of the cluster has no folder.
    MissingArbiter(u16),
    /// No node has begun, or each that has is out of numbers.
    NoNode,
    /// The arbitrators keep more partitions than a line declares.
    Many,
    /// The line would not be read as what was chosen.
    Unread,
    /// There was not enough memory. It may come in place of any other answer.
    OutOfMemory,
}

impl From<OutOfMemory> for AgainRefusal {
    ghost from_gives = { λ _ e. e ≡ NoMemory };

    fn from(_error: OutOfMemory) -> AgainRefusal {
        AgainRefusal::OutOfMemory
    }
}

impl From<AllocError> for AgainRefusal {
    ghost from_gives = { λ _ e. e ≡ NoMemory };

    fn from(_error: AllocError) -> AgainRefusal {
        AgainRefusal::OutOfMemory
    }
}

impl<T: Drop> From<AllocFailed<T>> for AgainRefusal {
    ghost from_gives = { λ _ e. e ≡ NoMemory };

    fn from(_error: AllocFailed<T>) -> AgainRefusal {
        AgainRefusal::OutOfMemory
    }
}
