ghost use Rattle.std.specs.Prelude.{◌≡◌, ◌≤◌, ◌<◌, ◌∷◌, ◌++◌, [], length};

use crate::command::Command;
use arrayvec::ArrayVec;
use ring_points::{FRAME_LIMIT, MAX_NODES};
use std::marker::Model;

/// What a schedule makes happen.
#[derive(Drop)]
pub enum Event {
    /// A process begins. The reading of its clock is None exactly for an arbitrator.
    Start { actor: u16, reading: Option<u64> },
    /// A process ends.
    Stop { actor: u16 },
    /// True time grows, and each running node's clock shows a reading.
    Tick { advance: u64, readings: Readings },
    /// A node's timer fires.
    Fire { node: u16 },
    /// The frame of this number, counted from 1 over all frames sent, comes to its addressee.
    Give { frame: u64 },
    /// An operator commands a node.
    Do { node: u16, command: Command },
    /// Bytes that are no frame come to an actor.
    Junk { actor: u16, bytes: JunkBytes },
}

/// Up to 64 nodes, each with the reading of its clock. Contracts see them as their list.
#[derive(Drop)]
pub struct Readings {
    pairs: ArrayVec<(u16, u64), MAX_NODES>,
}

impl Model for Readings {
    ghost use Rattle.std.specs.Prelude.{◌≤◌, List, ℕ, length};
    ghost use Rattle.ring_points.specs.Limits.{most_nodes};

    ghost Value = { List (ℕ × ℕ) };

    ghost view = { λ a. a.pairs.items };

    ghost invariant = { λ a. length a.pairs.items ≤ most_nodes };
}

impl Readings {
    /// No readings.
    pub fn new() -> Self
        ensures { result ≡ [] }
    {
        Readings {
            pairs: ArrayVec::new(),
        }
    }

    pub fn as_slice(&self) -> &[(u16, u64)]
        ensures { result.now ≡ self.now }
    {
        self.pairs.as_slice()
    }

    /// Adds a node's reading at the end.
    pub fn push(&mut self, node: u16, reading: u64)
        requires { length self.old < MAX_NODES }
        ensures { self.new ≡ self.old ++ (node, reading) ∷ [] }
    {
        self.pairs.push((node, reading));
    }
}

/// Up to 1,200 bytes. Contracts see them as their list.
#[derive(Drop)]
pub struct JunkBytes {
    bytes: ArrayVec<u8, FRAME_LIMIT>,
}

impl Model for JunkBytes {
    ghost use Rattle.std.specs.Prelude.{◌≤◌, List, ℕ, length};
    ghost use Rattle.ring_points.specs.Limits.{most_frame};

    ghost Value = { List ℕ };

    ghost view = { λ a. a.bytes.items };

    ghost invariant = { λ a. length a.bytes.items ≤ most_frame };
}

impl JunkBytes {
    /// No bytes.
    pub fn new() -> Self
        ensures { result ≡ [] }
    {
        JunkBytes {
            bytes: ArrayVec::new(),
        }
    }

    pub fn as_slice(&self) -> &[u8]
        ensures { result.now ≡ self.now }
    {
        self.bytes.as_slice()
    }

    /// Adds a byte at the end.
    pub fn push(&mut self, byte: u8)
        requires { length self.old < FRAME_LIMIT }
        ensures { self.new ≡ self.old ++ byte ∷ [] }
    {
        self.bytes.push(byte);
    }
}
