use fabric_terms::OutOfMemory;
use node_core::NodeEffects;
use std::alloc::Global;
use turn_effects::Buffers;

/// What each step of a run works in: the memory that it asks for more, what it leaves to do, and buffers for that. The
/// steps of a run take turns at one of these, so that no step makes its own.
#[derive(Drop)]
pub(crate) struct Workspace {
    pub(crate) alloc: Global,
    pub(crate) effects: Box<NodeEffects>,
    pub(crate) buffers: Buffers,
}

impl Workspace {
    /// A workspace in which nothing is left to do.
    pub(crate) fn new(alloc: Global) -> Result<Self, OutOfMemory> {
        Ok(Workspace {
            alloc,
            effects: NodeEffects::take_from(&mut None, alloc)?,
            buffers: Buffers::new(alloc),
        })
    }
}
