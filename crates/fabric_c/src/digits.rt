// Bytes as digits, two a byte.
ghost use Rattle.std.specs.Prelude.{◌≡◌, ◌==◌, ◌++◌, ◌∷◌, ℕ, List, OnOk, MatchResult, position};
ghost use Rattle.hex.specs.Hex.{IsBytes, encode_lower};

use fabric_terms::OutOfMemory;
use hex::FromHexError;
use std::alloc::Global;
use text_fields::push_bytes;

/// Appends bytes in digits.
pub fn push_digits(alloc: Global, text: &mut Vec<u8>, bytes: &[u8]) -> Result<(), OutOfMemory>
    ensures { OnOk result (text.new.items ≡ text.old.items ++ encode_lower bytes.now) }
{
    let digits = hex::encode(alloc, bytes)?;
    push_bytes(text, digits.as_bytes())
}

fn first_blank(bytes: &[u8]) -> Option<usize>
    ensures { result ≡ position (λ b. b == 32) bytes.now }
{
    bytes.iter().position(|b| *b == b' ')
}

/// What stands before the first blank of a line, or all of it.
fn digits_of(line: &[u8]) -> &[u8]
    ensures { (bytes rest : List ℕ) → IsBytes bytes → line.now ≡ encode_lower bytes ++ 32 ∷ rest →
        result.now ≡ encode_lower bytes }
{
    match first_blank(line) {
        Some(end) => &line[..end],
        None => line,
    }
}

/// The bytes whose digits stand at the front of the line, with a blank behind them. Where none stand so, any bytes or
/// any refusal may come.
pub fn digits_at(alloc: Global, line: &[u8]) -> Result<Vec<u8>, FromHexError>
    ensures { (bytes rest : List ℕ) → IsBytes bytes → line.now ≡ encode_lower bytes ++ 32 ∷ rest →
        MatchResult result (λ v. v.items ≡ bytes) (λ e. e ≡ FromHexError.OutOfMemory) }
{
    hex::decode(alloc, digits_of(line))
}
