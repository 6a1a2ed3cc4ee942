use crate::unit_part::UnitNode;
use ring_node::{Owned, RingNode};

/// The parts of a node that a step changes.
#[derive(Drop)]
pub(crate) struct NodeParts {
    /// The ring is boxed, and the rest is not. It is 35 KB, nearly the whole node: so a node that is moved moves one KB, and
    /// its ring is written where it stays.
    pub(crate) ring: Box<RingNode>,
    /// What the ring owned when that was last told, to tell after the next step what has changed.
    pub(crate) owned: Owned,
    /// What runs above the ring.
    pub(crate) units: UnitNode,
}
