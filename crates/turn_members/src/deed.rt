use fabric_terms::Head;
use node_core::Outcome;

/// What a start or a step of an actor leaves to do, and the head of its reports: the turn, who did it, and with which
/// reading.
#[derive(Drop)]
pub struct Deed {
    pub head: Head,
    pub outcome: Outcome,
}
