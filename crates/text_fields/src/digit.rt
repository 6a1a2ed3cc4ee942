ghost use Rattle.std.specs.Prelude.{◌≡◌, ◌<◌, IfOk};
ghost use Rattle.text_fields.specs.Fields.{Gives};
ghost use Rattle.text_fields.specs.Points.{hex_value, hex_digit};

use crate::bad_field::BadField;

/// The value of a hexadecimal digit.
pub fn hex_value(b: u8) -> Result<u8, BadField>
    ensures value { Gives (λ x. x) result (hex_value b) }
    ensures small { IfOk result (λ d. d < 16) }
{
    match b {
        b'0'..=b'9' => Ok(b - b'0'),
        b'a'..=b'f' => Ok(b - b'a' + 10),
        _ => Err(BadField),
    }
}

/// The hexadecimal digit of a value.
pub fn hex_digit(d: u8) -> u8
    requires { d < 16 }
    ensures { result ≡ hex_digit d }
{
    if d < 10 { b'0' + d } else { b'a' - 10 + d }
}
