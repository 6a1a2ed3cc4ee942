// Answers that arbitrators of this program never give, so that no schedule reaches them: votes for three configurations
// of one epoch, and the last epoch of all.

use crate::turns::configs::ONE;
use crate::turns::memory::{Arrival, Call, NONE, keeper};
use std::test::Fail;

const WHOLE: &str = "0 - 1.1 0 own 0000000000000000-ffffffffffffffff -";

/// Arbitrator 1 prepared epoch 0.1 of partition 1 for 1.1.
const PREPARED_AT_1: &[u8] =
    b"\x53\x01\x21\x80\x01\x00\x00\x00\x00\x00\x01\x00\x00\x00\x01\x00\x01\x00\x00\x00\x00\x00\x00\x00\x01\x00";

/// So did arbitrator 2.
const PREPARED_AT_2: &[u8] =
    b"\x53\x01\x21\x80\x02\x00\x00\x00\x00\x00\x01\x00\x00\x00\x01\x00\x01\x00\x00\x00\x00\x00\x00\x00\x01\x00";

/// Arbitrator 1 voted for node 1.
const VOTED_AT_1: &[u8] =
    b"\x53\x01\x24\x80\x01\x00\x00\x00\x00\x00\x01\x00\x00\x00\x01\x00\x01\x00\x00\x00\x00\x00\x00\x00\x01\x00\x01\x00\x00\x00\x00\x00\x00\x00\x01\x00\x01\x01\x00\x01";

/// Arbitrator 2 voted for node 2.
const VOTED_AT_2: &[u8] =
    b"\x53\x01\x24\x80\x02\x00\x00\x00\x00\x00\x01\x00\x00\x00\x01\x00\x01\x00\x00\x00\x00\x00\x00\x00\x01\x00\x01\x00\x00\x00\x00\x00\x00\x00\x01\x00\x02\x01\x00\x02";

/// Arbitrator 3 voted for node 3.
const VOTED_AT_3: &[u8] =
    b"\x53\x01\x24\x80\x03\x00\x00\x00\x00\x00\x01\x00\x00\x00\x01\x00\x01\x00\x00\x00\x00\x00\x00\x00\x01\x00\x01\x00\x00\x00\x00\x00\x00\x00\x01\x00\x03\x01\x00\x03";

const SPLIT: [Arrival; 5] = [
    (1, Some(PREPARED_AT_1)),
    (1, Some(PREPARED_AT_2)),
    (1, Some(VOTED_AT_1)),
    (1, Some(VOTED_AT_2)),
    (1, Some(VOTED_AT_3)),
];

/// The next command takes the epoch above the split one. Each command asks three arbitrators, and so do the votes and
/// the firing of the second turn.
#[test]
fn split_votes_end_an_epoch(rt: HostRuntime) -> Result<(), Fail> {
    let split = Call {
        words: &["node", "1", "2"],
        lines: &[ONE, "1 create 1 1\n2 create 1 1"],
        arrivals: &SPLIT,
        readings: &[0],
    };
    let mut keeps = keeper(rt.alloc(), NONE)?;
    let wanted = [WHOLE, "1 - 1.1 0 superseded 1 0.1", "end 2"];
    split.expect(&rt, rt.alloc(), &mut keeps, NONE, (0, &wanted, 12))
}

/// Arbitrator 1 keeps the last epoch of partition 1.
const KEPT_LAST: &[u8] =
    b"\x53\x01\x22\x80\x01\x00\x00\x00\x00\x00\x01\x00\x00\x00\x01\x00\x01\x00\x00\x00\x00\x00\x00\x00\x01\xff\xff\xff\xff\xff\xff\xff\xff";

/// There is no epoch above it, and no greater data loss number.
#[test]
fn an_epoch_behind_the_last_is_refused(rt: HostRuntime) -> Result<(), Fail> {
    let last = Call {
        words: &["node", "1", "2"],
        lines: &[ONE, "1 create 1 1\n2 create 1 1\n2 lose 1 1"],
        arrivals: &[(1, Some(KEPT_LAST))],
        readings: &[0],
    };
    let mut keeps = keeper(rt.alloc(), NONE)?;
    let wanted = [
        WHOLE,
        "1 - 1.1 0 superseded 1 4294967295.4294967295",
        "2 - 1.1 0 refused create counters",
        "2 - 1.1 0 refused lose counters",
        "end 2",
    ];
    last.expect(&rt, rt.alloc(), &mut keeps, NONE, (0, &wanted, 3))
}
