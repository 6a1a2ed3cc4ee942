/// The greatest true time, in ticks.
pub const MAX_TRUE_TIME: u64 = 2_000_000_000_000_000;

/// How far a clock may be from the true time: `d` per mille of every span, and
/// `grain` ticks beside.
#[derive(Clone, Copy, Debug, PartialEq, Eq)]
pub struct Bound {
    pub d: u64,
    pub grain: u64,
}
