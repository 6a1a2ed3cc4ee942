ghost use Rattle.std.specs.Prelude.{◌≡◌, ◌≤◌, ◌<◌, ◌∷◌, ◌++◌, [], length};

use crate::limits::MAX_MEMBERS;
use arrayvec::ArrayVec;
use std::marker::Model;

/// When a configuration of a partition was made. Epochs are compared by the data loss number, then by
/// the configuration number (Microsoft's documentation).
#[derive(Clone, Copy, Debug, PartialEq, Eq, PartialOrd, Ord, Default)]
pub struct Epoch {
    pub data_loss: u32,
    pub configuration: u32,
}

/// The nodes of a configuration: at most 7, which contracts see as their list.
#[derive(Drop)]
pub struct Members {
    nodes: ArrayVec<u16, MAX_MEMBERS>,
}

impl Model for Members {
    ghost use Rattle.std.specs.Prelude.{◌≤◌, List, ℕ, length};
    ghost use Rattle.ring_points.specs.Limits.{most_members};

    ghost Value = { List ℕ };

    ghost view = { λ a. a.nodes.items };

    ghost invariant = { λ a. length a.nodes.items ≤ most_members };
}

impl Members {
    /// No nodes.
    pub fn new() -> Self
        ensures { result ≡ [] }
    {
        Members {
            nodes: ArrayVec::new(),
        }
    }

    pub fn as_slice(&self) -> &[u16]
        ensures nodes { result.now ≡ self.now }
        ensures few { length result.now ≤ MAX_MEMBERS }
    {
        self.nodes.as_slice()
    }

    /// Adds a node at the end.
    pub fn push(&mut self, node: u16)
        requires { length self.old < MAX_MEMBERS }
        ensures { self.new ≡ self.old ++ node ∷ [] }
    {
        self.nodes.push(node);
    }

    /// The same nodes again.
    pub fn copy(&self) -> Self
        ensures { result ≡ self.now }
    {
        let mut nodes = ArrayVec::new();
        for node in self.nodes.as_slice() {
            nodes.push(*node);
        }
        Members { nodes }
    }
}

/// Which replicas a partition has: its members, and the primary among them.
#[derive(Drop)]
pub struct Config {
    pub partition: u16,
    pub epoch: Epoch,
    pub primary: u16,
    pub members: Members,
}

impl Config {
    /// The same configuration again.
    pub fn copy(&self) -> Config
        ensures { result ≡ self.now }
    {
        Config {
            partition: self.partition,
            epoch: self.epoch,
            primary: self.primary,
            members: self.members.copy(),
        }
    }
}
