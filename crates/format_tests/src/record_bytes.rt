// Records of each kind, cut at each length, a byte longer and altered in each byte, and records out of their place. A
// reading of the grammar apart from this program gave the answers.

use crate::records::{BOOT_1, BOOT_2, PROMISED, records};
use keep_log::{KeptError, read_records};
use std::alloc::Global;
use std::process::Abort;
use std::test::Fail;

/// 1.1 is the first accuser of 2.1.
const ACCUSED: &[u8] = b"\x02\x00\x02\x00\x00\x00\x01\x00\x01\x00\x00\x00\x01";

/// Epoch 0.7 of partition 5 is prepared for 1.1.
const PREPARED: &[u8] = b"\x03\x00\x05\x00\x00\x00\x00\x00\x00\x00\x07\x00\x01\x00\x00\x00\x01";

/// Its vote is for nodes 2 and 3.
const VOTED: &[u8] = b"\x04\x00\x05\x00\x00\x00\x00\x00\x00\x00\x07\x00\x02\x02\x00\x02\x00\x03";

/// That configuration is done.
const DONE: &[u8] = b"\x05\x00\x05\x00\x00\x00\x00\x00\x00\x00\x07\x00\x02\x02\x00\x02\x00\x03";

/// The log of 0.7 is an empty one.
const ADOPTED: &[u8] = b"\x09\x00\x05\x00\x00\x00\x00\x00\x00\x00\x07\x00\x00\x00\x00\x00";

/// Its first entry.
const WROTE: &[u8] =
    b"\x07\x00\x05\x00\x00\x00\x00\x00\x00\x00\x07\x00\x00\x00\x01\x00\x02\x61\x62";

/// The first entry of a copy for 0.7.
const INCOMING: &[u8] =
    b"\x08\x00\x05\x00\x00\x00\x00\x00\x00\x00\x07\x00\x00\x00\x01\x00\x00\x00\x00\x00\x00\x00\x03\x00\x02\x61\x62";

/// 3.1 is the first claimer of round 2 about 2.1.
const CLAIMED: &[u8] = b"\x0a\x00\x02\x00\x00\x00\x01\x02\x00\x03\x00\x00\x00\x01";

/// The number of the first bad record, or 0 where all are good.
fn first_bad(alloc: Global, list: &[Vec<u8>]) -> Option<usize> {
    match read_records(alloc, list) {
        Ok(_) => Some(0),
        Err(KeptError::BadRecord(place)) => Some(place),
        Err(KeptError::OutOfMemory) => None,
    }
}

/// The same where this record stands behind those.
fn first_bad_behind(alloc: Global, before: &[&[u8]], last: Vec<u8>) -> Result<Option<usize>, Fail> {
    let mut list = records(alloc, before)?;
    list.push(last)?;
    Ok(first_bad(alloc, &list))
}

/// The values that each byte is set to in turn.
const BYTES: [u8; 3] = [0x00, 0x02, 0xff];

/// Records, one that stands behind them, and for each value and each place whether the altered record is good there
/// (+).
type Record = (&'static [&'static [u8]], &'static [u8], [&'static str; 3]);

const RECORDS: [Record; 10] = [
    (&[], BOOT_1, [".+++.", ".....", "....."]),
    (
        &[],
        ACCUSED,
        [".+.+++.+.+++.", "+++++++++++++", "..+++++.+++++"],
    ),
    (
        &[],
        PREPARED,
        [
            ".+++++++++++.+++.",
            ".++++++++++++++++",
            ".++++++++++.+++++",
        ],
    ),
    (
        &[],
        VOTED,
        [
            ".+++++++++++..+.+.",
            ".++++++++++.++.++.",
            ".++++++++++......+",
        ],
    ),
    (
        &[],
        DONE,
        [
            ".+++++++++++..+.+.",
            ".++++++++++.++.++.",
            ".++++++++++......+",
        ],
    ),
    (
        &[BOOT_1],
        PROMISED,
        [".+++++++++.", ".++++++++++", ".++++++++++"],
    ),
    (
        &[BOOT_1, PROMISED, ADOPTED],
        WROTE,
        [
            ".+.+++++++.+++.+.++",
            "................+++",
            ".................++",
        ],
    ),
    (
        &[BOOT_1, PROMISED],
        INCOMING,
        [
            ".+.+++++++.+++.+++++++++.++",
            "...............++++++++.+++",
            "...............++++++++..++",
        ],
    ),
    (
        &[BOOT_1, PROMISED],
        ADOPTED,
        [".+.+++++++.+++++", "................", "................"],
    ),
    (
        &[ACCUSED],
        CLAIMED,
        [".+.+++..+.+++.", "..+....+++++++", ".........+++++"],
    ),
];

fn expect_bad(rt: &impl Abort, alloc: Global, before: &[&[u8]], last: Vec<u8>) -> Result<(), Fail> {
    let length = last.len();
    let bad = first_bad_behind(alloc, before, last)?;
    assert_eq!(rt;
        bad,
        Some(before.len().saturating_add(1)),
        "at {length} bytes"
    );
    Ok(())
}

/// A record that is cut, or longer by a byte, is none.
fn expect_one_length(rt: &impl Abort, alloc: Global, record: &Record) -> Result<(), Fail> {
    for end in 0..record.1.len() {
        expect_bad(rt, alloc, record.0, record.1[..end].to_vec(alloc)?)?;
    }
    let mut longer = record.1.to_vec(alloc)?;
    longer.push(0)?;
    expect_bad(rt, alloc, record.0, longer)
}

#[test]
fn a_record_has_one_length(rt: HostRuntime) -> Result<(), Fail> {
    for record in &RECORDS {
        expect_one_length(&rt, rt.alloc(), record)?;
    }
    Ok(())
}

/// The bytes with one of them set.
fn altered(alloc: Global, record: &[u8], place: usize, byte: u8) -> Result<Vec<u8>, Fail> {
    let mut bytes = record.to_vec(alloc)?;
    if let Some(old) = bytes.get_mut(place) {
        *old = byte;
    }
    Ok(bytes)
}

fn expect_altered(
    rt: &impl Abort,
    alloc: Global,
    record: &Record,
    byte: u8,
    answers: &str,
) -> Result<(), Fail> {
    for (place, answer) in answers.bytes().enumerate() {
        let bad = first_bad_behind(alloc, record.0, altered(alloc, record.1, place, byte)?)?;
        let wanted = if answer == b'+' {
            0
        } else {
            record.0.len().saturating_add(1)
        };
        assert_eq!(rt; bad, Some(wanted), "byte {byte} at {place}");
    }
    Ok(())
}

#[test]
fn an_altered_record_is_read_by_the_grammar(rt: HostRuntime) -> Result<(), Fail> {
    for record in &RECORDS {
        for (byte, answers) in BYTES.iter().zip(&record.2) {
            expect_altered(&rt, rt.alloc(), record, *byte, answers)?;
        }
    }
    Ok(())
}

/// Records, and the number of the first that is bad where it stands, or 0.
type List = (&'static [&'static [u8]], usize);

/// The second entry of that copy.
const INCOMING_NEXT: &[u8] =
    b"\x08\x00\x05\x00\x00\x00\x00\x00\x00\x00\x07\x00\x00\x00\x02\x00\x00\x00\x00\x00\x00\x00\x03\x00\x02\x63\x64";

/// The log of 0.7 is a copy of one entry.
const ADOPTED_ONE: &[u8] = b"\x09\x00\x05\x00\x00\x00\x00\x00\x00\x00\x07\x00\x00\x00\x01\x00";

/// The log of 0.7 is the own one, of no entry.
const ADOPTED_OWN: &[u8] = b"\x09\x00\x05\x00\x00\x00\x00\x00\x00\x00\x07\x00\x00\x00\x00\x01";

/// Partition 5 has promised 0.8.
const PROMISED_NEXT: &[u8] = b"\x06\x00\x05\x00\x00\x00\x00\x00\x00\x00\x08";

/// The log of 0.8 is the own one, of one entry.
const ADOPTED_NEXT: &[u8] = b"\x09\x00\x05\x00\x00\x00\x00\x00\x00\x00\x08\x00\x00\x00\x01\x01";

const LISTS: [List; 23] = [
    (&[BOOT_1, BOOT_1], 2),
    (&[BOOT_1, ACCUSED], 2),
    (&[ACCUSED, BOOT_1], 2),
    (&[ACCUSED, ACCUSED], 2),
    (&[PREPARED, PREPARED], 2),
    (&[VOTED, VOTED], 2),
    (&[DONE, DONE], 2),
    (&[CLAIMED], 1),
    (&[ACCUSED, CLAIMED, CLAIMED], 3),
    (&[BOOT_1, PROMISED, PROMISED], 3),
    (&[BOOT_1, PROMISED, WROTE], 3),
    (&[BOOT_1, PROMISED, ADOPTED, WROTE, WROTE], 5),
    (&[BOOT_1, PROMISED, ADOPTED, PROMISED_NEXT, WROTE], 5),
    (&[BOOT_1, PROMISED, ADOPTED, ADOPTED], 4),
    (&[BOOT_1, PROMISED, INCOMING_NEXT], 3),
    (&[BOOT_1, PROMISED, INCOMING, BOOT_2, INCOMING_NEXT], 5),
    (
        &[BOOT_1, PROMISED, INCOMING, BOOT_2, INCOMING, ADOPTED_ONE],
        0,
    ),
    (&[BOOT_1, PROMISED, INCOMING, INCOMING_NEXT, ADOPTED_ONE], 5),
    (&[BOOT_1, PROMISED, ADOPTED_ONE], 3),
    (&[BOOT_1, PROMISED, ADOPTED_OWN], 3),
    (
        &[
            BOOT_1,
            PROMISED,
            ADOPTED,
            WROTE,
            PROMISED_NEXT,
            ADOPTED_NEXT,
        ],
        0,
    ),
    (&[BOOT_1, PROMISED, ADOPTED, PROMISED_NEXT, ADOPTED_NEXT], 5),
    (&[PREPARED, VOTED, DONE, ACCUSED, CLAIMED, PROMISED], 6),
];

fn expect_list(rt: &impl Abort, alloc: Global, list: &List) -> Result<(), Fail> {
    let bad = first_bad(alloc, &records(alloc, list.0)?);
    assert_eq!(rt; bad, Some(list.1), "of {} records", list.0.len());
    Ok(())
}

#[test]
fn a_record_has_its_place(rt: HostRuntime) -> Result<(), Fail> {
    for list in &LISTS {
        expect_list(&rt, rt.alloc(), list)?;
    }
    Ok(())
}
