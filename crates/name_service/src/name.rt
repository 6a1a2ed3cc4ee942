ghost use Rattle.std.specs.Prelude.{◌≡◌, if◌then◌else◌, IfOk, OnErr, Some, None, true};
ghost use Rattle.name_rules.specs.Grammar.{every, is_name, is_name_byte};

use fabric_terms::OutOfMemory;
use ring_points::MAX_NAME;
use std::alloc::Global;
use std::marker::Model;

/// A name: 1 to `MAX_NAME` visible signs of ASCII without the comma. Contracts see it as its bytes.
#[derive(Drop)]
pub struct Name {
    bytes: Vec<u8>,
}

impl Model for Name {
    ghost use Rattle.std.specs.Prelude.{◌≡◌, List, ℕ, true};
    ghost use Rattle.name_rules.specs.Grammar.{is_name};

    ghost Value = { List ℕ };

    ghost view = { λ a. a.bytes.items };

    ghost invariant = { λ a. is_name a.bytes.items ≡ true };
}

fn is_name_byte(b: u8) -> bool
    ensures { result ≡ is_name_byte b }
{
    b'!' <= b && b <= b'~' && b != b','
}

fn has_name_bytes(bytes: &[u8]) -> bool
    ensures { result ≡ every is_name_byte bytes.now }
{
    for b in bytes {
        if !is_name_byte(*b) {
            return false;
        }
    }
    true
}

/// Whether the bytes are a name.
pub(crate) fn is_name(bytes: &[u8]) -> bool
    ensures { result ≡ is_name bytes.now }
{
    1 <= bytes.len() && bytes.len() <= MAX_NAME && has_name_bytes(bytes)
}

impl Name {
    /// The name that the bytes are: None exactly where they are no name, and then it takes no memory.
    pub fn read(alloc: Global, bytes: &[u8]) -> Result<Option<Name>, OutOfMemory>
        ensures read { IfOk result (λ name. name ≡ (if is_name bytes.now then Some bytes.now else None)) }
        ensures memory { OnErr result (is_name bytes.now ≡ true) }
    {
        if !is_name(bytes) {
            return Ok(None);
        }
        Ok(Some(Name::of(alloc, bytes)?))
    }

    /// A copy of these bytes, which are a name.
    pub(crate) fn of(alloc: Global, bytes: &[u8]) -> Result<Name, OutOfMemory>
        requires { is_name bytes.now ≡ true }
        ensures { IfOk result (λ name. name ≡ bytes.now) }
    {
        Ok(Name {
            bytes: bytes.to_vec(alloc)?,
        })
    }

    pub fn as_slice(&self) -> &[u8]
        ensures bytes { result.now ≡ self.now }
        ensures name { is_name result.now ≡ true }
    {
        self.bytes.as_slice()
    }
}
