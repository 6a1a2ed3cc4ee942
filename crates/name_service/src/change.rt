ghost use Rattle.std.specs.Prelude.{◌≡◌, ◌==◌, ◌+◌, position, option_map};
ghost use Rattle.name_rules.specs.Grammar.{every, is_value, is_value_byte, change_of, set_of, delete_of};
ghost use Rattle.name_service.specs.Changes.{seen};

use crate::name::is_name;
use ring_points::MAX_NAME_VALUE;
use text_fields::after_word;

/// A name gets a value, or it has none any more.
pub(crate) enum Change<'a> {
    Sets { name: &'a [u8], value: &'a [u8] },
    Deletes { name: &'a [u8] },
}

fn is_value_byte(b: u8) -> bool
    ensures { result ≡ is_value_byte b }
{
    b' ' <= b && b <= b'~'
}

fn has_value_bytes(bytes: &[u8]) -> bool
    ensures { result ≡ every is_value_byte bytes.now }
{
    for b in bytes {
        if !is_value_byte(*b) {
            return false;
        }
    }
    true
}

fn is_value(bytes: &[u8]) -> bool
    ensures { result ≡ is_value bytes.now }
{
    1 <= bytes.len() && bytes.len() <= MAX_NAME_VALUE && has_value_bytes(bytes)
}

fn first_blank(bytes: &[u8]) -> Option<usize>
    ensures { result ≡ position (λ b. b == 32) bytes.now }
{
    bytes.iter().position(|b| *b == b' ')
}

/// What stands behind `set `.
fn set_of(bytes: &[u8]) -> Option<Change<'_>>
    ensures { option_map seen result ≡ set_of bytes.now }
{
    let blank = first_blank(bytes)?;
    let name = &bytes[..blank];
    let value = &bytes[blank + 1..];
    if is_name(name) && is_value(value) {
        Some(Change::Sets { name, value })
    } else {
        None
    }
}

/// What stands behind `del `.
fn delete_of(bytes: &[u8]) -> Option<Change<'_>>
    ensures { option_map seen result ≡ delete_of bytes.now }
{
    if is_name(bytes) {
        Some(Change::Deletes { name: bytes })
    } else {
        None
    }
}

/// What the bytes of an entry change, if they are about names at all.
#[tactic(auto, unfolding(name_rules::specs::Grammar::change_of))]
pub(crate) fn change_of(bytes: &[u8]) -> Option<Change<'_>>
    ensures { option_map seen result ≡ change_of bytes.now }
{
    if let Ok(rest) = after_word(b"set ", bytes) {
        return set_of(rest);
    }
    match after_word(b"del ", bytes) {
        Ok(rest) => delete_of(rest),
        Err(_) => None,
    }
}
