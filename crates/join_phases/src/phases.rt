ghost use Rattle.std.specs.Prelude.{◌≡◌, ◌<◌, ◌↔◌, [], is_ok, IsErr, IfErr};
ghost use Rattle.join_phases.specs.Phases.{bound_phase, holding_phase, left};
ghost use Rattle.join_phases.specs.Starts.{may_found};

use fabric_terms::Why;
use ring_points::RangeSet;
use std::marker::Model;

/// A process that has begun, and does nothing yet. Contracts see it as how it began.
#[derive(Drop)]
pub struct Booting {
    first: bool,
    instance: u32,
}

impl Model for Booting {
    ghost use Rattle.join_phases.specs.Starts.{Start};

    ghost Value = { Start };

    ghost view = { λ b. record { first = b.first; instance = b.instance } };
}

/// A node without a link. It ends by a link, or by leaving.
#[derive(Drop)]
pub struct Seeking(());

/// A node with a link and without ranges; it wants some. It ends by ranges, or by leaving.
#[derive(Drop)]
pub struct Linked(());

/// A node that had ranges: it routes, and alone may freeze and give. It ends by leaving.
#[derive(Drop)]
pub struct Routing(());

/// A node that has left the ring for good. Nothing ends it.
#[derive(Drop)]
pub struct Left {
    pub why: Why,
}

/// The phase of a node, as the node keeps it: its steps are taken as its owner says.
#[derive(Drop)]
pub enum Phase {
    Seeking(Seeking),
    Linked(Linked),
    Routing(Routing),
    Left(Left),
}

impl Phase {
    /// A link is bound: a seeking node is linked. In any other phase nothing changes.
    pub fn bind(&mut self)
        ensures { self.new ≡ bound_phase self.old }
    {
        if matches!(self, Phase::Seeking(_)) {
            *self = Phase::Linked(Linked(()));
        }
    }

    /// Ranges are owned: a linked node routes. In any other phase nothing changes.
    pub fn hold(&mut self)
        ensures { self.new ≡ holding_phase self.old }
    {
        if matches!(self, Phase::Linked(_)) {
            *self = Phase::Routing(Routing(()));
        }
    }

    /// The node leaves for good, in whatever phase it is; of one that has left only the reason is another.
    pub fn leave(&mut self, why: Why)
        ensures { self.new ≡ left why }
    {
        *self = Phase::Left(Left { why });
    }
}

impl Booting {
    /// A process of the configured first node or of another, with its instance.
    pub fn new(first: bool, instance: u32) -> Booting
        ensures { result ≡ record { first = first; instance = instance } }
    {
        Booting { first, instance }
    }

    /// The node has the whole ring. The process is handed back where it is not instance 1 of the first
    /// node.
    pub fn found(self) -> Result<Routing, Booting>
        ensures given { is_ok result ≡ may_found self }
        ensures back { IfErr result (λ booting. booting ≡ self) }
    {
        if self.first && self.instance == 1 {
            Ok(Routing(()))
        } else {
            Err(self)
        }
    }

    /// The node has no link yet.
    pub fn seek(self) -> Seeking {
        Seeking(())
    }
}

impl Seeking {
    /// The node is bound to a peer. The phase is handed back where no link is bound.
    pub fn bind(self, bound_links: usize) -> Result<Linked, Seeking>
        ensures { IsErr result ↔ (bound_links ≡ 0) }
    {
        if bound_links == 0 {
            Err(self)
        } else {
            Ok(Linked(()))
        }
    }

    /// The node leaves for good.
    pub fn leave(self, why: Why) -> Left
        ensures { result.why ≡ why }
    {
        Left { why }
    }
}

impl Linked {
    /// The node holds ranges. The phase is handed back where they are empty.
    pub fn hold(self, ranges: &RangeSet) -> Result<Routing, Linked>
        ensures { IsErr result ↔ (ranges.now ≡ []) }
    {
        if ranges.intervals().is_empty() {
            Err(self)
        } else {
            Ok(Routing(()))
        }
    }

    /// The node leaves for good.
    pub fn leave(self, why: Why) -> Left
        ensures { result.why ≡ why }
    {
        Left { why }
    }
}

impl Routing {
    /// The node leaves for good.
    pub fn leave(self, why: Why) -> Left
        ensures { result.why ≡ why }
    {
        Left { why }
    }
}
