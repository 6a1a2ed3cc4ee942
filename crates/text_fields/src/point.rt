ghost use Rattle.std.specs.Prelude.{◌≡◌, ◌++◌, OnOk};
ghost use Rattle.fabric_terms.specs.Ranges.{IsPoint};
ghost use Rattle.text_fields.specs.Fields.{Gives, last, word_of};
ghost use Rattle.text_fields.specs.Inverses.{IsField, EndsAnyhow};
ghost use Rattle.text_fields.specs.Points.{point_at, point_text};
ghost use Rattle.text_fields.specs.Texts.{Keeps};

use crate::bad_field::BadField;
use crate::digit::{hex_digit, hex_value};
use crate::word::{after_word, push_bytes};
use fabric_terms::OutOfMemory;

/// How many hexadecimal digits a point has.
const POINT_DIGITS: usize = 16;

/// A point, and what follows it.
#[tactic(auto, unfolding(crate::specs::Points::point_at))]
pub fn point_at(bytes: &[u8]) -> Result<(u64, &[u8]), BadField>
    ensures { Gives (λ x. (x.0, x.1.now)) result (point_at bytes.now) }
{
    if bytes.len() < POINT_DIGITS {
        return Err(BadField);
    }
    let (digits, rest) = bytes.split_at(POINT_DIGITS);
    let mut point: u64 = 0;
    for digit in digits {
        point = 16 * point + u64::from(hex_value(*digit)?);
    }
    Ok((point, rest))
}

/// A point and the blank behind it, and what follows.
pub fn point_word(bytes: &[u8]) -> Result<(u64, &[u8]), BadField>
    ensures { Gives (λ x. (x.0, x.1.now)) result (word_of point_at bytes.now) }
{
    let (point, rest) = point_at(bytes)?;
    Ok((point, after_word(b" ", rest)?))
}

/// A point that nothing follows.
pub fn last_point(bytes: &[u8]) -> Result<u64, BadField>
    ensures { Gives (λ x. x) result (last point_at bytes.now) }
{
    match point_at(bytes)? {
        (point, []) => Ok(point),
        _ => Err(BadField),
    }
}

/// Appends a point of the ring, in 16 hexadecimal digits.
#[tactic(auto, unfolding(crate::specs::Points::point_text))]
pub fn push_point(into: &mut Vec<u8>, point: u64) -> Result<(), OutOfMemory>
    ensures ok { OnOk result (into.new.items ≡ into.old.items ++ point_text point) }
    ensures kept { Keeps into.old.items into.new.items }
{
    let mut digits = [0u8; POINT_DIGITS];
    let mut rest = point;
    for i in 0..POINT_DIGITS {
        digits[POINT_DIGITS - 1 - i] = hex_digit((rest % 16) as u8);
        rest /= 16;
    }
    push_bytes(into, &digits)
}

/// A point has one text, and nothing else is read as that point.
pub fn points_have_one_text()
    ensures { IsField point_at IsPoint point_text EndsAnyhow }
{}
