use drift_clock::Drift;
use node_core::NodeCore;

/// A running node, and what its clock has shown since it began.
#[derive(Drop)]
pub struct Running {
    pub drift: Drift,
    pub node: Box<NodeCore>,
}
