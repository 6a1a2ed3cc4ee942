use fabric_terms::OutOfMemory;
use thiserror::Error;

/// Why a list of records can not be read.
#[derive(Clone, Copy, Debug, PartialEq, Eq, Error)]
pub enum KeptError {
    /// This record, counted from 1, is the first that is none or not in its place. What is kept was changed or cut by
    /// another hand: the actor must not run on it.
    #[error("record {0} is bad")]
    BadRecord(usize),
    /// There was not enough memory.
    #[error("out of memory")]
    OutOfMemory,
}

impl From<OutOfMemory> for KeptError {
    ghost use Rattle.keep_log.specs.declared.kept_error.KeptError.TheVariants.{OutOfMemory as NoMemory};
    ghost use Rattle.std.specs.Prelude.{◌≡◌};

    ghost from_gives = { λ _ refusal. refusal ≡ NoMemory };

    fn from(_refused: OutOfMemory) -> KeptError {
        KeptError::OutOfMemory
    }
}
