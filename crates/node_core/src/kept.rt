ghost use Rattle.std.specs.Prelude.{◌≡◌};
ghost use Rattle.node_core.specs.Nodes.{nothing_kept};

use std::alloc::Global;
use unit_replica::ReplicaStates;

/// What the records of a node amount to while it does not run. A start takes it from here, and a stop gives it back.
#[derive(Drop)]
pub struct NodeKept {
    /// How many instances of the node have begun.
    pub boots: u32,
    /// The replicas that its records name, as the next instance begins with them.
    pub states: ReplicaStates,
}

impl NodeKept {
    /// Nothing is recorded yet. Replicas grow by this allocator.
    pub fn new(alloc: Global) -> Self
        ensures { result ≡ nothing_kept }
    {
        NodeKept {
            boots: 0,
            states: ReplicaStates::new(alloc),
        }
    }
}
