use arbiter_core::Arbiter;

/// A configured arbitrator: what its synced records amount to, and whether it runs. Its process has no more than that,
/// so a stop and a start leave it as it is.
#[derive(Drop)]
pub struct ConfiguredArbiter {
    pub arbiter: Arbiter,
    pub runs: bool,
}
