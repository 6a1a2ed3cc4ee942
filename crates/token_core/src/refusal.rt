ghost use Rattle.std.specs.Prelude.{◌≡◌};

use ring_points::TooMany;

/// Why a call on a token is refused. A refused call changes nothing.
#[derive(Clone, Copy, Debug, PartialEq, Eq)]
pub enum TokenRefusal {
    /// A freeze stands.
    Busy,
    /// A result would need more than 32 intervals.
    TooMany,
    /// No owned point is meant.
    Empty,
    /// Not every link has acknowledged the freeze.
    NotReady,
    /// No freeze stands.
    NoFreeze,
    /// A version or flight number above 4,294,967,295 would be needed.
    Counters,
}

impl From<TooMany> for TokenRefusal {
    ghost use Rattle.token_core.specs.declared.refusal.TokenRefusal.{TokenRefusal};

    ghost from_gives = { λ _ refusal. refusal ≡ TokenRefusal.TooMany };

    fn from(_: TooMany) -> TokenRefusal {
        TokenRefusal::TooMany
    }
}
