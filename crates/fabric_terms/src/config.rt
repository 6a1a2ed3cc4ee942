ghost use Rattle.std.specs.Prelude.{◌≡◌, string_bytes};

use drift_clock::Bound;
use ring_points::Point;
use std::marker::Model;

/// Where an actor listens, as `127.0.0.1:4000`; empty where the configuration does not say. Contracts
/// see it as its bytes.
#[derive(Drop)]
pub struct Address {
    text: String,
}

impl Model for Address {
    ghost use Rattle.std.specs.Prelude.{List, ℕ, string_bytes};

    ghost Value = { List ℕ };

    ghost view = { λ a. string_bytes a.text };
}

impl Address {
    pub fn new(text: String) -> Self
        ensures { result ≡ string_bytes text }
    {
        Address { text }
    }

    pub fn as_str(&self) -> &str
        ensures { result.now ≡ self.now }
    {
        self.text.as_str()
    }
}

/// A configured node: its number, its point of the ring, its fault domain, where it listens, and the
/// longest lease that it agrees to, in ticks.
#[derive(Drop)]
pub struct NodeEntry {
    pub node: u16,
    pub point: Point,
    pub domain: u16,
    pub at: Address,
    pub longest: u64,
}

/// The configured nodes in the order of the text. Contracts see them as their list.
#[derive(Drop)]
pub struct Nodes {
    entries: Vec<NodeEntry>,
}

impl Model for Nodes {
    ghost use Rattle.std.specs.Prelude.{List};
    ghost use Rattle.fabric_terms.specs.declared.config.NodeEntry.{NodeEntry};

    ghost Value = { List NodeEntry };

    ghost view = { λ a. a.entries.items };
}

impl Nodes {
    pub fn new(entries: Vec<NodeEntry>) -> Self
        ensures { result ≡ entries.items }
    {
        Nodes { entries }
    }

    pub fn as_slice(&self) -> &[NodeEntry]
        ensures { result.now ≡ self.now }
    {
        self.entries.as_slice()
    }
}

/// The configured arbitrators: each its number, which is its place in the list from 1, and where it
/// listens. Contracts see them as their list.
#[derive(Drop)]
pub struct Arbiters {
    entries: Vec<(u16, Address)>,
}

impl Model for Arbiters {
    ghost use Rattle.std.specs.Prelude.{List, ℕ};

    ghost Value = { List (ℕ × List ℕ) };

    ghost view = { λ a. a.entries.items };
}

impl Arbiters {
    pub fn new(entries: Vec<(u16, Address)>) -> Self
        ensures { result ≡ entries.items }
    {
        Arbiters { entries }
    }

    pub fn as_slice(&self) -> &[(u16, Address)]
        ensures { result.now ≡ self.now }
    {
        self.entries.as_slice()
    }
}

/// A configuration. Times are in ticks.
#[derive(Drop)]
pub struct FabricConfig {
    /// The node whose instance 1 begins with the whole ring.
    pub first: u16,
    /// With how many nodes on each side a routing node asks for links.
    pub near: u8,
    /// How many rounds of heirs there may be.
    pub rounds: u8,
    /// The length of a lease where a link agrees no other.
    pub lease: u64,
    /// How long an answer of the arbitrators may take before the node gives up its ranges.
    pub answer: u64,
    /// How far clocks may drift.
    pub bound: Bound,
    pub nodes: Nodes,
    pub arbiters: Arbiters,
}
