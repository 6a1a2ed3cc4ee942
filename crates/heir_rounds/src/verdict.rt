/// What the answers to the claims of one round amount to so far.
#[derive(Clone, Copy, Debug, PartialEq, Eq)]
pub enum RoundVerdict {
    /// Somebody can still get a majority of this round.
    Open,
    /// Nobody can get a majority of the round before: this one is the present one now.
    Next(u8),
    /// A majority keeps this claimer: it is the victim's heir.
    Won,
    /// A majority keeps another, or nobody can get a majority of the last round.
    Over,
}
