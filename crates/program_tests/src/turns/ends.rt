// A node that has left, which is no fault of a device or of a source.

use crate::turns::configs::{DUO, HELLO};
use crate::turns::memory::{Call, NONE, keeper};
use std::alloc::Global;
use std::process::Abort;
use std::test::Fail;

const WHOLE: &str = "0 - 1.1 0 own 0000000000000000-ffffffffffffffff -";

const FENCED: &str = "1 - 1.1 0 own 0000000000000000-ffffffffffffffff 4000";

const LEFT: &str = "2 - 1.1 4000 left fence\n2 - 1.1 4000 own - -";

/// Node 1 for two turns, alone or in a cluster: the words, the readings, and the text.
type Leaving = (
    &'static [&'static str],
    &'static [u64],
    &'static [&'static str],
);

const LEAVING: [Leaving; 2] = [
    (&["node", "1", "2"], &[0, 0, 4000], &[WHOLE, FENCED, LEFT]),
    (
        &["cluster", "2"],
        &[0, 0, 0, 0, 4000],
        &[WHOLE, "0 - 2.1 0 own - -", FENCED, LEFT],
    ),
];

/// Node 1 offers node 2 a link twice in the first turn, and hears no answer until its fence.
fn expect_leaving(rt: &impl Abort, alloc: Global, leaving: &Leaving) -> Result<(), Fail> {
    let call = Call {
        words: leaving.0,
        lines: &[DUO],
        arrivals: &[(1, Some(HELLO))],
        readings: leaving.1,
    };
    let mut keeps = keeper(alloc, NONE)?;
    call.expect(rt, alloc, &mut keeps, NONE, (13, leaving.2, 2))
}

#[test]
fn a_node_that_left_ends_its_program(rt: HostRuntime) -> Result<(), Fail> {
    for leaving in &LEAVING {
        expect_leaving(&rt, rt.alloc(), leaving)?;
    }
    Ok(())
}
