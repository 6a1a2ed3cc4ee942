ghost use Rattle.std.specs.Prelude.{◌≡◌, ◌<◌, IfSome};
ghost use Rattle.fabric_config.specs.Points.{digit_of, point_of};

use ring_points::Point;

/// How many hexadecimal digits a point has.
const DIGITS: usize = 16;

fn digit_of(byte: u8) -> Option<u8>
    ensures value { result ≡ digit_of byte }
    ensures small { IfSome result (λ d. d < 16) }
{
    match byte {
        b'0'..=b'9' => Some(byte - b'0'),
        b'a'..=b'f' => Some(byte - b'a' + 10),
        _ => None,
    }
}

/// The point that the text spells.
#[tactic(auto, unfolding(crate::specs::Points::point_of))]
pub fn point_of(text: &str) -> Option<Point>
    ensures { result ≡ point_of text.now }
{
    let digits = text.as_bytes();
    if digits.len() != DIGITS {
        return None;
    }
    let mut value = 0u64;
    for byte in digits {
        value = 16 * value + u64::from(digit_of(*byte)?);
    }
    Some(Point(value))
}
