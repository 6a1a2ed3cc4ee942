ghost use Rattle.std.specs.Prelude.{◌≡◌, ◌≤◌, ◌<◌, ◌∷◌, ◌++◌, [], length};

use arrayvec::ArrayVec;
use ring_points::MAX_WRITE;
use std::marker::Model;

/// The bytes of a write: at most 512, in the value itself. Contracts see them as their list.
#[derive(Drop)]
pub struct Payload {
    bytes: ArrayVec<u8, MAX_WRITE>,
}

impl Model for Payload {
    ghost use Rattle.std.specs.Prelude.{◌≤◌, List, ℕ, length};
    ghost use Rattle.ring_points.specs.Limits.{most_write};

    ghost Value = { List ℕ };

    ghost view = { λ a. a.bytes.items };

    ghost invariant = { λ a. length a.bytes.items ≤ most_write };
}

impl Payload {
    /// No bytes.
    pub fn new() -> Self
        ensures { result ≡ [] }
    {
        Payload {
            bytes: ArrayVec::new(),
        }
    }

    /// A copy of these bytes.
    pub fn from_slice(bytes: &[u8]) -> Self
        requires { length bytes.now ≤ MAX_WRITE }
        ensures { result ≡ bytes.now }
    {
        let mut copy = ArrayVec::new();
        for byte in bytes {
            copy.push(*byte);
        }
        Payload { bytes: copy }
    }

    /// The same bytes again.
    pub fn copy(&self) -> Self
        ensures { result ≡ self.now }
    {
        Payload::from_slice(self.bytes.as_slice())
    }

    pub fn as_slice(&self) -> &[u8]
        ensures bytes { result.now ≡ self.now }
        ensures short { length result.now ≤ MAX_WRITE }
    {
        self.bytes.as_slice()
    }

    /// Adds a byte at the end.
    pub fn push(&mut self, byte: u8)
        requires { length self.old < MAX_WRITE }
        ensures { self.new ≡ self.old ++ byte ∷ [] }
    {
        self.bytes.push(byte);
    }
}
