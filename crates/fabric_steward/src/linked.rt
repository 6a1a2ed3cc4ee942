ghost use Rattle.std.specs.Prelude.{◌≡◌};
ghost use Rattle.fabric_steward.specs.Links.{Links};

/// What the code of a node can answer of its links and its points.
pub trait Linked {
    /// What the node knows of them.
    ghost links: { Self → Links };

    /// Whether it owns a point.
    fn owns(&self) -> bool
        ensures { result ≡ (links self.now).owns };

    /// Whether a flight of its points is out.
    fn is_giving(&self) -> bool
        ensures { result ≡ (links self.now).is_giving };

    /// Whether its link with a node is bound.
    fn is_bound(&self, node: u16) -> bool
        ensures { result ≡ (links self.now).is_bound node };

    /// Whether it has an active link with a node.
    fn is_active(&self, node: u16) -> bool
        ensures { result ≡ (links self.now).is_active node };
}
