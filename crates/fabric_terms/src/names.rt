ghost use Rattle.std.specs.Prelude.{◌≡◌, ◌≤◌, ◌<◌, ◌∷◌, ◌++◌, [], length};

use arrayvec::ArrayVec;
use ring_points::MAX_NAME;
use std::marker::Model;

/// A name of the name service: at most 64 bytes, in the value itself. Contracts see it as its list.
#[derive(Drop)]
pub struct NameText {
    bytes: ArrayVec<u8, MAX_NAME>,
}

impl Model for NameText {
    ghost use Rattle.std.specs.Prelude.{◌≤◌, List, ℕ, length};
    ghost use Rattle.ring_points.specs.Limits.{most_name};

    ghost Value = { List ℕ };

    ghost view = { λ a. a.bytes.items };

    ghost invariant = { λ a. length a.bytes.items ≤ most_name };
}

impl NameText {
    /// A name of no bytes, to be filled.
    pub fn new() -> Self
        ensures { result ≡ [] }
    {
        NameText {
            bytes: ArrayVec::new(),
        }
    }

    /// A name of these bytes.
    pub fn from_slice(bytes: &[u8]) -> Self
        requires { length bytes.now ≤ MAX_NAME }
        ensures { result ≡ bytes.now }
    {
        let mut copy = ArrayVec::new();
        for byte in bytes {
            copy.push(*byte);
        }
        NameText { bytes: copy }
    }

    /// The same name again.
    pub fn copy(&self) -> Self
        ensures { result ≡ self.now }
    {
        NameText::from_slice(self.bytes.as_slice())
    }

    pub fn as_slice(&self) -> &[u8]
        ensures bytes { result.now ≡ self.now }
        ensures short { length result.now ≤ MAX_NAME }
    {
        self.bytes.as_slice()
    }

    /// Adds a byte at the end.
    pub fn push(&mut self, byte: u8)
        requires { length self.old < MAX_NAME }
        ensures { self.new ≡ self.old ++ byte ∷ [] }
    {
        self.bytes.push(byte);
    }
}

/// What a name stands for. Contracts see it as its list of bytes.
#[derive(Drop)]
pub struct NameValue {
    bytes: Vec<u8>,
}

impl Model for NameValue {
    ghost use Rattle.std.specs.Prelude.{List, ℕ};

    ghost Value = { List ℕ };

    ghost view = { λ a. a.bytes.items };
}

impl NameValue {
    pub fn new(bytes: Vec<u8>) -> Self
        ensures { result ≡ bytes.items }
    {
        NameValue { bytes }
    }

    pub fn as_slice(&self) -> &[u8]
        ensures { result.now ≡ self.now }
    {
        self.bytes.as_slice()
    }
}

/// Names, in the order in which they are told. Contracts see them as their list.
#[derive(Drop)]
pub struct NameTexts {
    names: Vec<NameText>,
}

impl Model for NameTexts {
    ghost use Rattle.std.specs.Prelude.{List, ℕ};

    ghost Value = { List (List ℕ) };

    ghost view = { λ a. a.names.items };
}

impl NameTexts {
    pub fn new(names: Vec<NameText>) -> Self
        ensures { result ≡ names.items }
    {
        NameTexts { names }
    }

    pub fn as_slice(&self) -> &[NameText]
        ensures { result.now ≡ self.now }
    {
        self.names.as_slice()
    }
}
