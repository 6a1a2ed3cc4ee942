// An arbitrator whose table is full.

use crate::turns::configs::{ACCUSE, DUO};
use crate::turns::memory::{Call, NONE};
use edge_io::{Keeper, MemKeeper};
use std::alloc::Global;
use std::process::Abort;
use std::test::Fail;

/// The record that 1.1 accused this instance of node 2.
fn accused(alloc: Global, instance: u32) -> Result<Vec<u8>, Fail> {
    let mut record = b"\x02\x00\x02".to_vec(alloc)?;
    record.extend_from_slice(&instance.to_be_bytes())?;
    record.extend_from_slice(b"\x00\x01\x00\x00\x00\x01")?;
    Ok(record)
}

/// The records of arbitrator 1 about the instances of node 2 from 2.2 on, before this one.
fn accusations(alloc: Global, end: u32) -> Result<MemKeeper, Fail> {
    let mut records = Vec::new(alloc);
    for instance in 2..end {
        records.push(accused(alloc, instance)?)?;
    }
    let mut lists = Vec::new(alloc);
    lists.push((32769, records))?;
    Ok(MemKeeper::new(alloc, lists, Vec::new(alloc)))
}

/// 1.1 accuses 2.2 at arbitrator 1.
const ACCUSE_AGAIN: &[u8] =
    b"\x53\x01\x10\x00\x01\x00\x00\x00\x01\x80\x01\x00\x00\x00\x00\x00\x02\x00\x00\x00\x02";

/// Arbitrator 1 for two turns: it is asked about an instance that it knows, and about a new one twice.
const ASKED: Call = Call {
    words: &["arbiter", "1", "2"],
    lines: &[DUO],
    arrivals: &[
        (32769, Some(ACCUSE_AGAIN)),
        (32769, Some(ACCUSE)),
        (32769, Some(ACCUSE)),
    ],
    readings: &[0],
};

/// Calls the arbitrator on the records of the instances before this one. Expects its status, what it writes, how many
/// answers it sends, and how many records it has then.
fn expect_asked(
    rt: &impl Abort,
    alloc: Global,
    end: u32,
    wanted: (u8, &[&str], usize),
    kept: usize,
) -> Result<(), Fail> {
    let mut keeps = accusations(alloc, end)?;
    ASKED.expect(rt, alloc, &mut keeps, NONE, wanted)?;
    match keeps.records(32769) {
        Ok(records) => assert_eq!(rt; records.len(), kept),
        Err(_) => assert!(rt; false, "the keeper fails"),
    }
    Ok(())
}

#[test]
fn an_arbitrator_below_its_limit_answers_all(rt: HostRuntime) -> Result<(), Fail> {
    expect_asked(&rt, rt.alloc(), 11, (0, &["end 2"], 3), 10)
}

/// An arbitrator keeps 1,000,000 entries at most, and each of its records is one. What it knows is still answered, and
/// what is new ends it: nothing is kept or sent of that.
#[test]
fn a_full_arbitrator_ends_at_a_new_accusation(rt: HostRuntime) -> Result<(), Fail> {
    let wanted: (u8, &[&str], usize) = (15, &["fault table"], 1);
    expect_asked(&rt, rt.alloc(), 1_000_002, wanted, 1_000_000)
}
