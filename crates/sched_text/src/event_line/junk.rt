ghost use Rattle.text_fields.specs.Fields.{Gives};
ghost use Rattle.line_format.specs.Lines.{junk_bytes_of};

use fabric_terms::JunkBytes;
use line_format::BadLine;
use ring_points::FRAME_LIMIT;
use text_fields::hex_value;

/// The bytes of a line of junk, from their digits to the end of the line. BadLine comes exactly where there is no byte,
/// there are too many, or not all are spelled by two digits each.
#[tactic(auto, unfolding(line_format::specs::Lines::junk_bytes_of))]
pub fn read_junk(digits: &[u8]) -> Result<JunkBytes, BadLine>
    ensures { Gives (λ x. x) result (junk_bytes_of digits.now) }
{
    if digits.len() < 2 || digits.len() > 2 * FRAME_LIMIT {
        return Err(BadLine);
    }
    let mut bytes = JunkBytes::new();
    let mut rest = digits;
    while let [high, low, more @ ..] = rest {
        bytes.push(16 * hex_value(*high)? + hex_value(*low)?);
        rest = more;
    }
    match rest {
        [] => Ok(bytes),
        _ => Err(BadLine),
    }
}
