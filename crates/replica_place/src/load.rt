/// A node as placement sees it.
#[derive(Clone, Copy, Debug, PartialEq, Eq)]
pub struct NodeLoad {
    /// The node's number.
    pub node: u16,
    /// The node's fault domain, 1 to 64: nodes of one domain can fail together.
    pub domain: u16,
    /// Whether the node can take a replica now.
    pub up: bool,
    /// How many replicas the node has already.
    pub load: u32,
}
