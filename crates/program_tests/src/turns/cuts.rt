// A step of two records, and the steps around it. The keeper fails at each record in turn, and the program then runs
// again on the same records.

use crate::turns::configs::{ADOPTED, BOOT, BOOT_AGAIN, PROMISED, SOLO};
use crate::turns::memory::{Arrival, Call, Failing, NONE, expect_kept, keeper};
use edge_io::MemKeeper;
use std::alloc::Global;
use std::process::Abort;
use std::test::Fail;

/// 1.1 prepares epoch 0.1 of partition 1 at arbitrator 1.
const PREPARE: &[u8] =
    b"\x53\x01\x20\x00\x01\x00\x00\x00\x01\x80\x01\x00\x00\x00\x00\x00\x01\x00\x00\x00\x00\x00\x00\x00\x01";

/// 1.1 asks for a vote for node 1 alone.
const VOTE: &[u8] =
    b"\x53\x01\x23\x00\x01\x00\x00\x00\x01\x80\x01\x00\x00\x00\x00\x00\x01\x00\x00\x00\x00\x00\x00\x00\x01\x00\x01\x01\x00\x01";

/// 1.1 asks the arbitrator to keep that configuration as done.
const DONE: &[u8] =
    b"\x53\x01\x26\x00\x01\x00\x00\x00\x01\x80\x01\x00\x00\x00\x00\x00\x01\x00\x00\x00\x00\x00\x00\x00\x01\x00\x01\x01\x00\x01";

/// The arbitrator has prepared that epoch.
const ANSWER_PREPARED: &[u8] =
    b"\x53\x01\x21\x80\x01\x00\x00\x00\x00\x00\x01\x00\x00\x00\x01\x00\x01\x00\x00\x00\x00\x00\x00\x00\x01\x00";

/// It votes for node 1 alone.
const ANSWER_VOTED: &[u8] =
    b"\x53\x01\x24\x80\x01\x00\x00\x00\x00\x00\x01\x00\x00\x00\x01\x00\x01\x00\x00\x00\x00\x00\x00\x00\x01\x00\x01\x00\x00\x00\x00\x00\x00\x00\x01\x00\x01\x01\x00\x01";

/// It keeps the configuration as done.
const ANSWER_DONE: &[u8] =
    b"\x53\x01\x27\x80\x01\x00\x00\x00\x00\x00\x01\x00\x00\x00\x01\x00\x01\x00\x00\x00\x00\x00\x00\x00\x01";

/// 1.1 asks whichever instance of node 1 runs to take up an empty log.
const SYNC: &[u8] =
    b"\x53\x01\x32\x00\x01\x00\x00\x00\x01\x00\x01\x00\x00\x00\x00\x00\x01\x00\x00\x00\x00\x00\x00\x00\x01\x00\x01\x00\x00\x00\x00";

/// 1.1 has taken it up.
const TAKEN_UP: &[u8] =
    b"\x53\x01\x35\x00\x01\x00\x00\x00\x01\x00\x01\x00\x00\x00\x01\x00\x01\x00\x00\x00\x00\x00\x00\x00\x01\x00\x00\x00\x00";

/// 1.1 tells whichever instance of node 1 runs that it is the primary.
const ACTIVATE: &[u8] =
    b"\x53\x01\x36\x00\x01\x00\x00\x00\x01\x00\x01\x00\x00\x00\x00\x00\x01\x00\x00\x00\x00\x00\x00\x00\x01\x00\x01\x01\x00\x01";

/// 1.1 is the primary.
const ACTIVATED: &[u8] =
    b"\x53\x01\x37\x00\x01\x00\x00\x00\x01\x00\x01\x00\x00\x00\x01\x00\x01\x00\x00\x00\x00\x00\x00\x00\x01";

/// The records of the arbitrator.
const PREPARED_BY: &[u8] = b"\x03\x00\x01\x00\x00\x00\x00\x00\x00\x00\x01\x00\x01\x00\x00\x00\x01";

const VOTED_FOR: &[u8] = b"\x04\x00\x01\x00\x00\x00\x00\x00\x00\x00\x01\x00\x01\x01\x00\x01";

const DONE_FOR: &[u8] = b"\x05\x00\x01\x00\x00\x00\x00\x00\x00\x00\x01\x00\x01\x01\x00\x01";

/// The first entry of the log.
const WROTE: &[u8] = b"\x07\x00\x01\x00\x00\x00\x00\x00\x00\x00\x01\x00\x00\x00\x01\x00\x05hello";

/// Node 1 creates partition 1, takes up its log in a step of two records, becomes its primary, and writes in the next
/// turn. Each frame arrives in the first turn, as if the network had it already.
const CREATE: Call = Call {
    words: &["cluster", "2"],
    lines: &[SOLO, "1 1 create 1 1\n2 1 write 1 hello"],
    arrivals: &ARRIVALS,
    readings: &[0],
};

const ARRIVALS: [Arrival; 10] = [
    (1, Some(ANSWER_PREPARED)),
    (1, Some(ANSWER_VOTED)),
    (1, Some(SYNC)),
    (1, Some(TAKEN_UP)),
    (1, Some(ANSWER_DONE)),
    (1, Some(ACTIVATE)),
    (1, Some(ACTIVATED)),
    (32769, Some(PREPARE)),
    (32769, Some(VOTE)),
    (32769, Some(DONE)),
];

const WHOLE: &str = "0 - 1.1 0 own 0000000000000000-ffffffffffffffff -";

const CREATED: &str =
    "1 - 1.1 0 promised 1 0.1\n1 - 1.1 0 primary 1 0.1\n1 - 1.1 0 configured 1 0.1";

const WRITTEN: &str = "2 - 1.1 0 accepted 1 0.1 1\n2 - 1.1 0 committed 1 0.1 1";

/// The second instance is no manager. The frame of the first one makes it the primary.
const GOES_ON: [&str; 5] = [
    "0 - 1.2 0 own - -",
    "1 - 1.2 0 refused create notmanager",
    "1 - 1.2 0 primary 1 0.1",
    "2 - 1.2 0 accepted 1 0.1 1\n2 - 1.2 0 committed 1 0.1 1",
    "end 2",
];

/// Which call of the keeper fails, the text, how many datagrams the program sends, and the records of the node and of
/// the arbitrator. The first two calls read the lists; each later one appends a record, in the order of the steps. A
/// failing append keeps its record where the call's number is even.
type Cut = (
    u64,
    &'static [&'static str],
    usize,
    &'static [&'static [u8]],
    &'static [&'static [u8]],
);

const CUTS: [Cut; 9] = [
    (1, &["fault keep"], 0, &[], &[]),
    (2, &["fault keep"], 0, &[], &[]),
    (3, &["fault keep"], 0, &[], &[]),
    (4, &[WHOLE, "fault keep"], 3, &[BOOT, PROMISED], &[]),
    (5, &[WHOLE, "fault keep"], 3, &[BOOT, PROMISED], &[]),
    (
        6,
        &[WHOLE, CREATED, "fault keep"],
        7,
        &[BOOT, PROMISED, ADOPTED],
        &[PREPARED_BY],
    ),
    (
        7,
        &[WHOLE, CREATED, "fault keep"],
        8,
        &[BOOT, PROMISED, ADOPTED],
        &[PREPARED_BY],
    ),
    (
        8,
        &[WHOLE, CREATED, "fault keep"],
        9,
        &[BOOT, PROMISED, ADOPTED],
        &[PREPARED_BY, VOTED_FOR, DONE_FOR],
    ),
    (
        9,
        &[WHOLE, CREATED, "fault keep"],
        10,
        &[BOOT, PROMISED, ADOPTED],
        &[PREPARED_BY, VOTED_FOR, DONE_FOR],
    ),
];

fn expect_cut(
    rt: &impl Abort,
    alloc: Global,
    keeps: &mut MemKeeper,
    failing: Failing,
    cut: &Cut,
) -> Result<(), Fail> {
    CREATE.expect(rt, alloc, keeps, failing, (10, cut.1, cut.2))?;
    expect_kept(rt, keeps, 1, cut.3)?;
    expect_kept(rt, keeps, 32769, cut.4)
}

/// The text of the next call on the same records, how many datagrams it sends, and the records of the node after it. A
/// start that was not kept did not happen.
fn next_call(call: u64) -> (&'static [&'static str], usize, &'static [&'static [u8]]) {
    if call < 4 {
        (
            &[WHOLE, CREATED, WRITTEN, "end 2"],
            10,
            &[BOOT, PROMISED, ADOPTED, WROTE],
        )
    } else if call < 6 {
        (&GOES_ON, 5, &[BOOT, PROMISED, BOOT_AGAIN, ADOPTED, WROTE])
    } else {
        (&GOES_ON, 5, &[BOOT, PROMISED, ADOPTED, BOOT_AGAIN, WROTE])
    }
}

fn expect_next(
    rt: &impl Abort,
    alloc: Global,
    keeps: &mut MemKeeper,
    call: u64,
) -> Result<(), Fail> {
    let (text, sent, records) = next_call(call);
    CREATE.expect(rt, alloc, keeps, NONE, (0, text, sent))?;
    expect_kept(rt, keeps, 1, records)?;
    expect_kept(rt, keeps, 32769, &[PREPARED_BY, VOTED_FOR, DONE_FOR])
}

fn expect_both(rt: &impl Abort, alloc: Global, cut: &Cut) -> Result<(), Fail> {
    let mut failing = NONE;
    failing.keeper = cut.0;
    let mut keeps = keeper(alloc, failing)?;
    expect_cut(rt, alloc, &mut keeps, failing, cut)?;
    expect_next(rt, alloc, &mut keeps, cut.0)
}

#[test]
fn a_partition_is_created_on_what_each_cut_leaves(rt: HostRuntime) -> Result<(), Fail> {
    for cut in &CUTS {
        expect_both(&rt, rt.alloc(), cut)?;
    }
    Ok(())
}
