ghost use Rattle.std.specs.Prelude.{◌≡◌};
ghost use Rattle.keep_log.specs.declared.not_taken.NotTaken.TheVariants.{OutOfMemory as NoMemory};

use fabric_terms::OutOfMemory;

/// Why a record is not taken.
#[derive(Clone, Copy)]
pub enum NotTaken {
    /// The bytes are no record, or one that does not stand in its place.
    OutOfPlace,
    /// There was not enough memory.
    OutOfMemory,
}

impl From<OutOfMemory> for NotTaken {
    ghost from_gives = { λ _ refusal. refusal ≡ NoMemory };

    fn from(_refused: OutOfMemory) -> NotTaken {
        NotTaken::OutOfMemory
    }
}
