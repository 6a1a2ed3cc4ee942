// Limits that a command meets: the links of a node, the partitions of a manager, and the entries of a log.

use crate::calls::{text_of, written};
use crate::partitions::{ALONE, CREATED};
use std::alloc::Global;
use std::process::Abort;
use std::test::Fail;

/// Replays the schedule, and expects the last lines of its report.
fn expect_last(rt: &impl Abort, alloc: Global, text: Vec<u8>, last: &[u8]) -> Result<(), Fail> {
    let left = written(alloc, &["replay"], text, Vec::new(alloc), Vec::new(alloc))?;
    left.expect_end(rt, last);
    Ok(())
}

/// 18 nodes and one arbitrator.
fn eighteen(alloc: Global) -> Result<String, Fail> {
    let mut line = String::from_str(
        alloc,
        r#"{"lease":3000,"answer":1000,"drift":10,"grain":1,"nodes":["#,
    )?;
    for number in 1..18 {
        let node = format!(in alloc; "{{\"node\":{number},\"point\":\"{number:016x}\"}},")?;
        line.push_str(node.as_str())?;
    }
    line.push_str(
        r#"{"node":18,"point":"0000000000000012"}],"arbiters":[{"arbiter":1}],"first":1}"#,
    )?;
    Ok(line)
}

/// Appends a command of node 1 for each number of a range.
fn push_commands(
    alloc: Global,
    text: &mut Vec<u8>,
    verb: &str,
    numbers: (u32, u32),
    rest: &str,
) -> Result<(), Fail> {
    for number in numbers.0..numbers.1 {
        let line = format!(in alloc; "do 1 {verb} {number}{rest}\n")?;
        text.extend_from_slice(line.as_bytes())?;
    }
    Ok(())
}

#[test]
fn a_node_has_16_links_at_most(rt: HostRuntime) -> Result<(), Fail> {
    let alloc = rt.alloc();
    let nodes = eighteen(alloc)?;
    let mut text = text_of(alloc, &[&[nodes.as_str(), "start 1 0"]])?;
    push_commands(alloc, &mut text, "link", (2, 19), "")?;
    let last = b"18 0 1.1 0 sent 16-16\n19 0 1.1 0 refused link full\nend 18 16\n";
    expect_last(&rt, alloc, text, last)
}

#[test]
fn a_manager_knows_4096_partitions_at_most(rt: HostRuntime) -> Result<(), Fail> {
    let alloc = rt.alloc();
    let mut text = text_of(alloc, &[&[ALONE, "start 1 0"]])?;
    push_commands(alloc, &mut text, "create", (0, 4097), " 1")?;
    let last = b"4098 0 1.1 0 sent 4096-4096\n4099 0 1.1 0 refused create full\nend 4098 4096\n";
    expect_last(&rt, alloc, text, last)
}

/// The lines of the last of 100,000 entries and of the one after it.
const LAST_ENTRY: &[u8] =
    b"100014 0 1.1 0 accepted 1 0.1 100000\n100014 0 1.1 0 committed 1 0.1 100000\n100015 0 1.1 0 refused write full\nend 100014 10\n";

#[test]
fn a_log_has_100000_entries_at_most(rt: HostRuntime) -> Result<(), Fail> {
    let alloc = rt.alloc();
    let mut text = text_of(alloc, &[&[ALONE], &CREATED])?;
    for _ in 0..100_000 {
        text.extend_from_slice(b"do 1 write 1 x\n")?;
    }
    expect_last(&rt, alloc, text, LAST_ENTRY)
}
