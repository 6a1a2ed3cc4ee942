// The lines of a book: `kept`, the partition, the data loss number, and the entry's number, epoch and bytes.
ghost use Rattle.std.specs.Prelude.{◌≡◌, ◌++◌, ◌≤◌, length, OnOk, OnErr};
ghost use Rattle.hex.specs.Hex.{encode_lower};
ghost use Rattle.text_fields.specs.Texts.{Keeps};
ghost use Rattle.write_safety.specs.Lines.{entry_text, head_text, kept_line, kept_lines, log_lines};

use crate::kept::KeptLog;
use fabric_terms::OutOfMemory;
use hex::encode_to_slice;
use replica_core::Entry;
use ring_points::MAX_WRITE;
use text_fields::{push_bytes, push_epoch, push_number};

/// Two for each byte of an entry.
const MAX_DIGITS: usize = 2 * MAX_WRITE;

fn push_hex(into: &mut Vec<u8>, bytes: &[u8]) -> Result<(), OutOfMemory>
    requires { length bytes.now ≤ MAX_WRITE }
    ensures ok { OnOk result (into.new.items ≡ into.old.items ++ encode_lower bytes.now) }
    ensures kept { Keeps into.old.items into.new.items }
{
    let mut room = [0u8; MAX_DIGITS];
    let digits = &mut room[..2 * bytes.len()];
    match encode_to_slice(bytes, digits) {
        Ok(()) => push_bytes(into, digits),
        Err(_) => unreachable!(),
    }
}

fn push_head(into: &mut Vec<u8>, partition: u16, data_loss: u32) -> Result<(), OutOfMemory>
    ensures ok { OnOk result (into.new.items ≡ into.old.items ++ head_text partition data_loss) }
    ensures kept { Keeps into.old.items into.new.items }
{
    push_bytes(into, b"kept ")?;
    push_number(into, u64::from(partition))?;
    push_bytes(into, b" ")?;
    push_number(into, u64::from(data_loss))
}

fn push_words(into: &mut Vec<u8>, entry: &Entry) -> Result<(), OutOfMemory>
    ensures ok { OnOk result (into.new.items ≡ into.old.items ++ entry_text entry.now) }
    ensures kept { Keeps into.old.items into.new.items }
{
    push_number(into, u64::from(entry.lsn))?;
    push_bytes(into, b" ")?;
    push_epoch(into, entry.epoch)?;
    push_bytes(into, b" ")?;
    push_hex(into, entry.bytes.as_slice())
}

fn push_entry(
    into: &mut Vec<u8>,
    partition: u16,
    data_loss: u32,
    entry: &Entry,
) -> Result<(), OutOfMemory>
    ensures ok { OnOk result (into.new.items ≡ into.old.items ++ kept_line partition data_loss entry.now) }
    ensures kept { Keeps into.old.items into.new.items }
{
    push_head(into, partition, data_loss)?;
    push_bytes(into, b" ")?;
    push_words(into, entry)?;
    push_bytes(into, b"\n")
}

fn push_log(into: &mut Vec<u8>, log: &KeptLog) -> Result<(), OutOfMemory>
    ensures ok { OnOk result (into.new.items ≡ into.old.items ++ log_lines log.now) }
    ensures kept { Keeps into.old.items into.new.items }
{
    for entry in log.entries() {
        push_entry(into, log.partition(), log.data_loss(), entry)?;
    }
    Ok(())
}

fn push_logs(into: &mut Vec<u8>, logs: &[KeptLog]) -> Result<(), OutOfMemory>
    ensures ok { OnOk result (into.new.items ≡ into.old.items ++ kept_lines logs.now) }
    ensures kept { Keeps into.old.items into.new.items }
{
    for log in logs {
        push_log(into, log)?;
    }
    Ok(())
}

/// Appends the lines of these. Where memory is short it appends nothing.
pub fn print_logs(logs: &[KeptLog], into: &mut Vec<u8>) -> Result<(), OutOfMemory>
    ensures ok { OnOk result (into.new.items ≡ into.old.items ++ kept_lines logs.now) }
    ensures refused { OnErr result (into.new.items ≡ into.old.items) }
{
    let before = into.len();
    let printed = push_logs(into, logs);
    if printed.is_err() {
        into.truncate(before);
    }
    printed
}
