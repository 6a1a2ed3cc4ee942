use drift_clock::Bound;

/// What the links of a node go by, in whichever instance. Each time is at most `MAX_LEASE` ticks.
#[derive(Clone, Copy)]
pub struct LinkSettings {
    /// The lease of a link that names no length.
    pub lease: u64,
    /// The longest lease that is granted.
    pub longest: u64,
    /// The time for an answer.
    pub answer: u64,
    /// How far clocks may drift.
    pub bound: Bound,
    /// How many arbitrators there are: they are asked by number, from 1.
    pub arbitrators: u8,
    /// How many rounds of heirs there may be.
    pub rounds: u8,
}
