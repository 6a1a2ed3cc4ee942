ghost use Rattle.std.specs.Prelude.{◌≡◌, ℕ, ◌^◌, ◌≤◌, ◌<◌, ◌++◌, decimal, IfOk, OnOk};
ghost use Rattle.text_fields.specs.Fields.{Gives, last, word_of};
ghost use Rattle.fabric_terms.specs.Ranges.{IsOptional};
ghost use Rattle.text_fields.specs.Inverses.{IsField, EndsNumber};
ghost use Rattle.text_fields.specs.Numbers.{IsIn, more_digits, number_at, number_in, optional_at, optional_text};
ghost use Rattle.text_fields.specs.Texts.{Keeps};

use crate::bad_field::BadField;
use crate::word::{after_word, push_bytes};
use fabric_terms::OutOfMemory;
use itoa::Buffer;

// The digits after the first ones, which make `first`.
fn more_digits(hi: u64, first: u64, bytes: &[u8]) -> Result<(u64, &[u8]), BadField>
    ensures { Gives (λ x. (x.0, x.1.now)) result (more_digits hi first bytes.now) }
{
    let mut n = first;
    for (i, b) in bytes.iter().enumerate() {
        if !b.is_ascii_digit() {
            return Ok((n, &bytes[i..]));
        }
        let digit = u64::from(*b - b'0');
        if n > hi / 10 || digit > hi - 10 * n {
            return Err(BadField);
        }
        n = 10 * n + digit;
    }
    Ok((n, &bytes[bytes.len()..]))
}

fn number_at(hi: u64, bytes: &[u8]) -> Result<(u64, &[u8]), BadField>
    ensures { Gives (λ x. (x.0, x.1.now)) result (number_at hi bytes.now) }
{
    match bytes {
        [b'0', rest @ ..] => Ok((0, rest)),
        [b, rest @ ..] if b.is_ascii_digit() => more_digits(hi, u64::from(*b - b'0'), rest),
        _ => Err(BadField),
    }
}

/// A number from `lo` to `hi` at the front, in decimal digits with no sign and no leading zero, and what
/// follows it.
#[tactic(auto, unfolding(crate::specs::Numbers::number_in))]
pub fn number_in(lo: u64, hi: u64, bytes: &[u8]) -> Result<(u64, &[u8]), BadField>
    ensures read { Gives (λ x. (x.0, x.1.now)) result (number_in lo hi bytes.now) }
    ensures range { IfOk result (λ x. (lo ≤ x.0) × (x.0 ≤ hi)) }
{
    let (n, rest) = number_at(hi, bytes)?;
    if lo <= n && n <= hi {
        Ok((n, rest))
    } else {
        Err(BadField)
    }
}

/// The same, and the blank behind it.
pub fn number_word(lo: u64, hi: u64, bytes: &[u8]) -> Result<(u64, &[u8]), BadField>
    ensures read { Gives (λ x. (x.0, x.1.now)) result (word_of (number_in lo hi) bytes.now) }
    ensures range { IfOk result (λ x. (lo ≤ x.0) × (x.0 ≤ hi)) }
{
    let (n, rest) = number_in(lo, hi, bytes)?;
    Ok((n, after_word(b" ", rest)?))
}

/// A number from `lo` to `hi` that nothing follows.
pub fn last_number(lo: u64, hi: u64, bytes: &[u8]) -> Result<u64, BadField>
    ensures read { Gives (λ x. x) result (last (number_in lo hi) bytes.now) }
    ensures range { IfOk result (λ x. (lo ≤ x) × (x ≤ hi)) }
{
    match number_in(lo, hi, bytes)? {
        (n, []) => Ok(n),
        _ => Err(BadField),
    }
}

// A number below 2^64, or a dash in its place, and what follows it.
fn optional_at(bytes: &[u8]) -> Result<(Option<u64>, &[u8]), BadField>
    ensures { Gives (λ x. (x.0, x.1.now)) result (optional_at bytes.now) }
{
    if let Ok(rest) = after_word(b"-", bytes) {
        return Ok((None, rest));
    }
    let (n, rest) = number_in(0, u64::MAX, bytes)?;
    Ok((Some(n), rest))
}

/// A number below 2^64, or a dash in its place, and the blank behind it, and what follows.
pub fn optional_word(bytes: &[u8]) -> Result<(Option<u64>, &[u8]), BadField>
    ensures { Gives (λ x. (x.0, x.1.now)) result (word_of optional_at bytes.now) }
{
    let (n, rest) = optional_at(bytes)?;
    Ok((n, after_word(b" ", rest)?))
}

/// A number below 2^64, or a dash in its place, that nothing follows.
pub fn last_optional(bytes: &[u8]) -> Result<Option<u64>, BadField>
    ensures { Gives (λ x. x) result (last optional_at bytes.now) }
{
    match optional_at(bytes)? {
        (n, []) => Ok(n),
        _ => Err(BadField),
    }
}

/// Appends a number, in decimal digits.
pub fn push_number(into: &mut Vec<u8>, n: u64) -> Result<(), OutOfMemory>
    ensures ok { OnOk result (into.new.items ≡ into.old.items ++ decimal n) }
    ensures kept { Keeps into.old.items into.new.items }
{
    let mut buffer = Buffer::new();
    push_bytes(into, buffer.format(n).as_bytes())
}

/// Appends a number, or a dash where there is none.
pub fn push_optional(into: &mut Vec<u8>, n: Option<u64>) -> Result<(), OutOfMemory>
    ensures ok { OnOk result (into.new.items ≡ into.old.items ++ optional_text n) }
    ensures kept { Keeps into.old.items into.new.items }
{
    match n {
        None => push_bytes(into, b"-"),
        Some(n) => push_number(into, n),
    }
}

/// A number has one text, and nothing else is read as that number.
pub fn numbers_have_one_text()
    ensures number { (lo hi : ℕ) → hi < 2 ^ 64 → IsField (number_in lo hi) (IsIn lo hi) decimal EndsNumber }
    ensures optional { IsField optional_at IsOptional optional_text EndsNumber }
{}
