// The committed writes of schedules.

use crate::calls::{text_of, written};
use crate::partitions::{ALONE, CREATED, LOST};
use std::alloc::Global;
use std::process::Abort;
use std::test::Fail;

/// What is kept of the first write.
const HELLO: &str = "kept 1 0 1 0.1 68656c6c6f";

/// Asks for the committed writes of the lines, where these reads and these writes fail, and expects the status and what
/// is written.
fn expect_writes(
    rt: &impl Abort,
    alloc: Global,
    events: &[&[&str]],
    reads: Vec<u64>,
    writes: Vec<u64>,
    code: u8,
    lines: &[&[&str]],
) -> Result<(), Fail> {
    let left = written(alloc, &["writes"], text_of(alloc, events)?, reads, writes)?;
    let wanted = text_of(alloc, lines)?;
    left.expect(rt, code, wanted.as_slice());
    Ok(())
}

#[test]
fn what_is_committed_is_written(rt: HostRuntime) -> Result<(), Fail> {
    let alloc = rt.alloc();
    let written = [HELLO, "end 14 10"];
    let events: [&[&str]; 2] = [&[ALONE], &CREATED];
    expect_writes(
        &rt,
        alloc,
        &events,
        Vec::new(alloc),
        Vec::new(alloc),
        0,
        &[&written],
    )
}

#[test]
fn each_data_loss_number_has_its_list(rt: HostRuntime) -> Result<(), Fail> {
    let alloc = rt.alloc();
    let written = [
        HELLO,
        "kept 1 1 1 0.1 68656c6c6f",
        "kept 1 1 2 1.1 616761696e",
        "end 28 22",
    ];
    let events: [&[&str]; 3] = [&[ALONE], &CREATED, &LOST];
    expect_writes(
        &rt,
        alloc,
        &events,
        Vec::new(alloc),
        Vec::new(alloc),
        0,
        &[&written],
    )
}

/// Nothing but the fault is written, whatever was committed before.
#[test]
fn a_fault_stands_alone(rt: HostRuntime) -> Result<(), Fail> {
    let alloc = rt.alloc();
    for (line, code, written) in [
        ("do 1 write 1", 6, "fault line 16"),
        ("start 1 0", 8, "fault nosuch 16"),
        ("give 11", 8, "fault nosuch 16"),
        ("tick 100 1:200", 7, "fault drift 16"),
    ] {
        let events: [&[&str]; 3] = [&[ALONE], &CREATED, &[line]];
        expect_writes(
            &rt,
            alloc,
            &events,
            Vec::new(alloc),
            Vec::new(alloc),
            code,
            &[&[written]],
        )?;
    }
    Ok(())
}

/// The first read fails, or the one behind all bytes.
#[test]
fn a_source_that_fails_leaves_its_fault_alone(rt: HostRuntime) -> Result<(), Fail> {
    let alloc = rt.alloc();
    for read in [1, 2] {
        let events: [&[&str]; 2] = [&[ALONE], &CREATED];
        expect_writes(
            &rt,
            alloc,
            &events,
            vec![in alloc; read]?,
            Vec::new(alloc),
            3,
            &[&["fault read"]],
        )?;
    }
    Ok(())
}

#[test]
fn a_sink_that_fails_has_nothing(rt: HostRuntime) -> Result<(), Fail> {
    let alloc = rt.alloc();
    let events: [&[&str]; 2] = [&[ALONE], &CREATED];
    expect_writes(
        &rt,
        alloc,
        &events,
        Vec::new(alloc),
        vec![in alloc; 1]?,
        4,
        &[],
    )
}
