ghost use Rattle.text_fields.specs.Fields.{Gives, last};
ghost use Rattle.line_format.specs.Lines.{count_at};

use ring_points::MAX_READING;
use text_fields::{BadField, last_number, number_in};

/// Ticks, a reading or a frame's number, and what follows it.
pub fn count_at(bytes: &[u8]) -> Result<(u64, &[u8]), BadField>
    ensures { Gives (λ x. (x.0, x.1.now)) result (count_at bytes.now) }
{
    number_in(0, MAX_READING, bytes)
}

/// The same, with nothing behind it.
pub fn last_count(bytes: &[u8]) -> Result<u64, BadField>
    ensures { Gives (λ x. x) result (last count_at bytes.now) }
{
    last_number(0, MAX_READING, bytes)
}
