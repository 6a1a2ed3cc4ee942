// Transcripts over devices in memory: what is traced of a schedule, and the verdict on what is read.

use crate::calls::{text_of, written};
use crate::schedules::ONE;
use std::alloc::Global;
use std::process::Abort;
use std::test::Fail;

/// The word, the first line that it reads, the lines behind it, the exit status, and what is written.
type Call = (&'static str, &'static str, &'static str, u8, &'static str);

const CALLS: [Call; 11] = [
    (
        "trace",
        ONE,
        "start 1 0",
        0,
        "transcript 0\n2 clocks 1.1:0\n2 0 1.1 0 own 0000000000000000-ffffffffffffffff -",
    ),
    (
        "audit",
        "transcript 0",
        "2 clocks 1.1:0\n2 0 1.1 0 own 0000000000000000-ffffffffffffffff -",
        0,
        "safe 1",
    ),
    (
        "trace",
        ONE,
        "start 1 0\nfire 1\ndo 1 find 00000000000000ff",
        0,
        "transcript 0\n2 clocks 1.1:0\n2 0 1.1 0 own 0000000000000000-ffffffffffffffff -\n3 clocks 1.1:0\n4 clocks 1.1:0\n4 0 1.1 0 found 00000000000000ff 1.1",
    ),
    (
        "audit",
        "transcript 0",
        "2 clocks 1.1:0\n2 0 1.1 0 own 0000000000000000-ffffffffffffffff -\n3 clocks 1.1:0\n4 clocks 1.1:0\n4 0 1.1 0 found 00000000000000ff 1.1",
        0,
        "safe 3",
    ),
    (
        "audit",
        "transcript 1",
        "2 clocks 1.1:0 2.1:0\n2 0 1.1 0 own 0000000000000000-0000000000000004 -\ntranscript 2\n3 clocks 1.1:0 2.1:0\n3 0 2.1 0 own 0000000000000004-0000000000000009 5",
        0,
        "breach 3 ring 0000000000000004 1.1 2.1",
    ),
    (
        "audit",
        "transcript 1",
        "2 clocks 1.1:0 2.1:0\n2 0 1.1 0 own 0000000000000000-0000000000000004 -\ntranscript 2\n3 clocks 1.1:0 2.1:5\n3 0 2.1 0 own 0000000000000004-0000000000000009 5",
        0,
        "safe 2",
    ),
    (
        "audit",
        "transcript 1",
        "4 clocks 1.1:0\n4 0 1.1 0 own 0000000000000000-0000000000000004 -\n5 clocks 1.1:0 2.1:0\n5 0 2.1 0 tookover 1.1 0000000000000000-0000000000000004",
        0,
        "breach 5 early 1.1 0000000000000000",
    ),
    (
        "audit",
        "transcript 1",
        "4 clocks\n4 0 1.1 0 primary 7 0.1\n5 clocks\n5 0 2.3 0 primary 7 0.1",
        0,
        "breach 5 primary 7 0.1 1 2",
    ),
    (
        "audit",
        "transcript 1",
        "4 clocks\n4 0 1.1 0 promised 7 0.2\n5 clocks\n5 0 1.2 0 accepted 7 0.1 3",
        0,
        "breach 5 older 1 7 0.2 0.1",
    ),
    (
        "audit",
        "transcript 1",
        "4 clocks 1.1:0\ntranscript 2\n4 clocks 1.1:0",
        6,
        "fault line 4",
    ),
    (
        "audit",
        "transcript 1",
        "4 clocks 2.1:0 1.1:0",
        6,
        "fault line 2",
    ),
];

fn expect_call(rt: &impl Abort, alloc: Global, call: &Call) -> Result<(), Fail> {
    let text = text_of(alloc, &[&[call.1, call.2]])?;
    let left = written(alloc, &[call.0], text, Vec::new(alloc), Vec::new(alloc))?;
    let wanted = text_of(alloc, &[&[call.4]])?;
    left.expect(rt, call.3, wanted.as_slice());
    Ok(())
}

#[test]
fn transcripts_are_traced_and_judged(rt: HostRuntime) -> Result<(), Fail> {
    for call in &CALLS {
        expect_call(&rt, rt.alloc(), call)?;
    }
    Ok(())
}
