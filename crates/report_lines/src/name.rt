ghost use Rattle.std.specs.Prelude.{◌≡◌, ◌≤◌, length};
ghost use Rattle.text_fields.specs.Fields.{Gives, last, word_of};
ghost use Rattle.line_format.specs.Names.{is_name_byte, name_length, name_at};

use fabric_terms::NameText;
use line_format::BadLine;
use ring_points::MAX_NAME;
use text_fields::after_word;

fn is_name_byte(b: u8) -> bool
    ensures { result ≡ is_name_byte b }
{
    b'!' <= b && b <= b'~' && b != b','
}

// How many bytes at the front a name can have.
fn name_length(bytes: &[u8]) -> usize
    ensures value { result ≡ name_length bytes.now }
    ensures within { result ≤ length bytes.now }
{
    for (i, b) in bytes.iter().enumerate() {
        if !is_name_byte(*b) {
            return i;
        }
    }
    bytes.len()
}

/// A name, and what follows it.
#[tactic(auto, unfolding(line_format::specs::Names::name_at))]
pub fn name_at(bytes: &[u8]) -> Result<(NameText, &[u8]), BadLine>
    ensures { Gives (λ x. (x.0, x.1.now)) result (name_at bytes.now) }
{
    let n = name_length(bytes);
    if n == 0 || n > MAX_NAME {
        return Err(BadLine);
    }
    let (name, rest) = bytes.split_at(n);
    Ok((NameText::from_slice(name), rest))
}

/// The same, and the blank behind it.
pub fn name_word(bytes: &[u8]) -> Result<(NameText, &[u8]), BadLine>
    ensures { Gives (λ x. (x.0, x.1.now)) result (word_of name_at bytes.now) }
{
    let (name, rest) = name_at(bytes)?;
    Ok((name, after_word(b" ", rest)?))
}

/// A name that nothing follows.
pub fn last_name(bytes: &[u8]) -> Result<NameText, BadLine>
    ensures { Gives (λ x. x) result (last name_at bytes.now) }
{
    match name_at(bytes)? {
        (name, []) => Ok(name),
        _ => Err(BadLine),
    }
}
