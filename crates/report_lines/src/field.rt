// Fields that commands and reports share.
ghost use Rattle.std.specs.Prelude.{◌≡◌, ◌≤◌, length, IfOk};
ghost use Rattle.std.specs.List.{list_all};
ghost use Rattle.text_fields.specs.Fields.{Gives, word_of};
ghost use Rattle.line_format.specs.Commands.{partition_at, is_printable, text_of};

use line_format::BadLine;
use ring_points::MAX_PARTITIONS;
use text_fields::{BadField, number_in, number_word};

/// The greatest number of a partition.
const MAX_PARTITION: u64 = MAX_PARTITIONS as u64 - 1;

/// A partition, and what follows it.
pub fn partition_at(bytes: &[u8]) -> Result<(u16, &[u8]), BadField>
    ensures { Gives (λ x. (x.0, x.1.now)) result (partition_at bytes.now) }
{
    let (partition, rest) = number_in(0, MAX_PARTITION, bytes)?;
    Ok((partition as u16, rest))
}

/// The same, and the blank behind it.
pub fn partition_word(bytes: &[u8]) -> Result<(u16, &[u8]), BadField>
    ensures { Gives (λ x. (x.0, x.1.now)) result (word_of partition_at bytes.now) }
{
    let (partition, rest) = number_word(0, MAX_PARTITION, bytes)?;
    Ok((partition as u16, rest))
}

fn is_printable(b: u8) -> bool
    ensures { result ≡ is_printable b }
{
    b' ' <= b && b <= b'~'
}

fn all_printable(bytes: &[u8]) -> bool
    ensures { result ≡ list_all is_printable bytes.now }
{
    bytes.iter().all(|b| is_printable(*b))
}

/// The same bytes, where there are some, at most so many, and all are blanks or visible signs.
#[tactic(auto, unfolding(line_format::specs::Commands::text_of))]
pub fn text_of(most: usize, bytes: &[u8]) -> Result<&[u8], BadLine>
    ensures read { Gives (λ x. x.now) result (text_of 1 most bytes.now) }
    ensures short { IfOk result (λ x. length x.now ≤ most) }
{
    if bytes.is_empty() || bytes.len() > most || !all_printable(bytes) {
        return Err(BadLine);
    }
    Ok(bytes)
}
