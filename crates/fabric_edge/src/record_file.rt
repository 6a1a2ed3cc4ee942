ghost use Rattle.std.specs.Prelude.{◌≡◌, ◌++◌, ◌<◌, ◌≤◌, length, drop, map, flat_map, vec_items, IfOk, OnOk, IfSome};
ghost use Rattle.std.specs.Prelude.{IfNone};
ghost use Rattle.fabric_edge.specs.RecordFile.{framed, IsIncomplete};

use std::alloc::{AllocError, Global};

/// How many bytes stand before a record in its file: its length, big-endian.
const LENGTH_BYTES: usize = 2;

/// Puts what stands in a file for the record into the buffer.
pub fn frame(into: &mut Vec<u8>, bytes: &[u8], count: u16) -> Result<(), AllocError>
    requires { count ≡ length bytes.now }
    ensures { OnOk result (into.new.items ≡ framed bytes.now) }
{
    into.clear();
    into.extend_from_slice(&count.to_be_bytes())?;
    into.extend_from_slice(bytes)?;
    Ok(())
}

/// The first record of a file's bytes, and the bytes after it; None where they begin with no whole record.
fn first_record(bytes: &[u8]) -> Option<(&[u8], &[u8])>
    ensures found { IfSome result (λ r. bytes.now ≡ framed r.0.now ++ r.1.now) }
    ensures none { IfNone result (IsIncomplete bytes.now) }
{
    let (length, rest) = bytes.split_first_chunk::<LENGTH_BYTES>()?;
    let (first, later) = rest.split_at_checked(usize::from(u16::from_be_bytes(*length)))?;
    Some((first, later))
}

/// The records of a file's bytes, and how many bytes they take. What is left is no whole record.
pub fn records_in(alloc: Global, bytes: &[u8]) -> Result<(Vec<Vec<u8>>, usize), AllocError>
    ensures records { IfOk result (λ r. bytes.now ≡ flat_map framed (map vec_items r.0.items) ++ drop r.1 bytes.now) }
    ensures within { IfOk result (λ r. r.1 ≤ length bytes.now) }
    ensures rest { IfOk result (λ r. IsIncomplete (drop r.1 bytes.now)) }
{
    let mut records = Vec::new(alloc);
    let mut rest = bytes;
    while let Some((first, later)) = first_record(rest) {
        records.push(Vec::from_slice(alloc, first)?)?;
        rest = later;
    }
    Ok((records, bytes.len() - rest.len()))
}
