ghost use Rattle.std.specs.Prelude.{◌≡◌, ◌+◌, ◌<◌, ◌≤◌, ◌↔◌, ◌++◌, [], false, drop, length, IsTrue};
ghost use Rattle.std.specs.Bool.{OnFalse, OnTrue};
ghost use Rattle.serve_edge.specs.Unreads.{Waiting};

use std::alloc::Global;
use std::marker::Model;

/// The bytes that wait for a client, so many at most. Contracts see the bytes and their limit.
#[derive(Drop)]
pub struct Unread {
    bytes: Vec<u8>,
    most: usize,
}

impl Model for Unread {
    ghost use Rattle.std.specs.Prelude.{◌≤◌, length};
    ghost use Rattle.serve_edge.specs.Unreads.{Waiting};

    ghost Value = { Waiting };

    ghost view = { λ u. record { bytes = u.bytes.items; most = u.most } };

    ghost invariant = { λ u. length u.bytes.items ≤ u.most };
}

impl Unread {
    /// Nothing waits. So many bytes may.
    pub fn new(alloc: Global, most: usize) -> Unread
        ensures { result ≡ record { bytes = []; most = most } }
    {
        Unread {
            bytes: Vec::new(alloc),
            most,
        }
    }

    /// What waits.
    pub fn front(&self) -> &[u8]
        ensures { result.now ≡ self.now.bytes }
    {
        &self.bytes
    }

    /// Whether nothing waits.
    pub fn is_empty(&self) -> bool
        ensures { IsTrue result ↔ (self.now.bytes ≡ []) }
    {
        self.bytes.is_empty()
    }

    /// Adds a text, and says whether it did. It does not where more bytes would wait than may, or no memory is left.
    pub fn push(&mut self, text: &[u8]) -> bool
        ensures added { OnTrue result (self.new ≡ record self.old { bytes = self.old.bytes ++ text.now }) }
        ensures refused { OnFalse result (self.new ≡ self.old) }
        ensures full { self.old.most < length self.old.bytes + length text.now → result ≡ false }
    {
        text.len() <= self.most - self.bytes.len() && self.bytes.extend_from_slice(text).is_ok()
    }

    /// So many of the bytes that wait were taken.
    pub fn taken(&mut self, count: usize)
        requires { count ≤ length self.old.bytes }
        ensures { self.new ≡ record self.old { bytes = drop count self.old.bytes } }
    {
        let left = self.bytes.len() - count;
        self.bytes.copy_within(count.., 0);
        self.bytes.truncate(left);
    }
}
