ghost use Rattle.std.specs.Prelude.{◌≡◌, ◌≤◌, ◌++◌, length, OnOk};
ghost use Rattle.hex.specs.Hex.{encode_lower};
ghost use Rattle.text_fields.specs.Texts.{Keeps};
ghost use Rattle.door_lines.specs.Words.{Entry, words_text};

use crate::pair::{push_epoch_behind, push_number_behind};
use fabric_terms::OutOfMemory;
use hex::encode_to_slice;
use ring_points::{Epoch, MAX_WRITE};
use text_fields::push_bytes;

/// Appends bytes in digits, two a byte.
pub fn push_hex(into: &mut Vec<u8>, bytes: &[u8]) -> Result<(), OutOfMemory>
    requires { length bytes.now ≤ MAX_WRITE }
    ensures ok { OnOk result (into.new.items ≡ into.old.items ++ encode_lower bytes.now) }
    ensures kept { Keeps into.old.items into.new.items }
{
    let mut room = [0u8; 2 * MAX_WRITE];
    let digits = &mut room[..2 * bytes.len()];
    match encode_to_slice(bytes, digits) {
        Ok(()) => push_bytes(into, digits),
        Err(_) => unreachable!(),
    }
}

/// Appends an entry of a log: its partition, its epoch, its number, and its text in digits, two a byte.
pub fn push_entry(
    into: &mut Vec<u8>,
    partition: u16,
    epoch: Epoch,
    lsn: u32,
    text: &[u8],
) -> Result<(), OutOfMemory>
    requires { length text.now ≤ MAX_WRITE }
    ensures ok { OnOk result (into.new.items ≡ into.old.items ++ words_text (Entry partition epoch lsn text.now)) }
    ensures kept { Keeps into.old.items into.new.items }
{
    push_number_behind(into, b"entry ", u64::from(partition))?;
    push_epoch_behind(into, epoch)?;
    push_number_behind(into, b" ", u64::from(lsn))?;
    push_bytes(into, b" ")?;
    push_hex(into, text)
}
