// Questions about names: what the primary of a partition answers.

use crate::partitions::{ALONE, CREATED, OF_CREATED};
use crate::schedules::expect_replay;
use std::test::Fail;

#[test]
fn a_primary_that_has_committed_nothing_is_not_ready(rt: HostRuntime) -> Result<(), Fail> {
    let asked = "do 1 resolve 1 a\ndo 1 names 1 0000000000000000-ffffffffffffffff";
    let answers = [
        "15 0 1.1 0 refused resolve notready",
        "16 0 1.1 0 refused names notready",
        "end 15 10",
    ];
    let events: [&[&str]; 3] = [&[ALONE], &CREATED[..2], &[asked]];
    expect_replay(&rt, rt.alloc(), &events, 0, &[&OF_CREATED[..14], &answers])
}

#[test]
fn names_are_answered_from_what_is_committed(rt: HostRuntime) -> Result<(), Fail> {
    let asked = [
        "do 1 write 1 set a 7",
        "do 1 resolve 1 a\ndo 1 resolve 1 b\ndo 1 names 1 a000000000000000-bfffffffffffffff",
        "do 1 write 1 del a\ndo 1 resolve 1 a\ndo 1 names 1 0000000000000000-ffffffffffffffff",
        "do 1 resolve 2 a",
    ];
    let answers = [
        "15 0 1.1 0 accepted 1 0.1 1",
        "15 0 1.1 0 committed 1 0.1 1",
        "16 0 1.1 0 resolved 1 a 7",
        "17 0 1.1 0 unresolved 1 b",
        "18 0 1.1 0 names 1 a",
        "19 0 1.1 0 accepted 1 0.1 2",
        "19 0 1.1 0 committed 1 0.1 2",
        "20 0 1.1 0 unresolved 1 a",
        "21 0 1.1 0 names 1",
        "22 0 1.1 0 refused resolve notprimary",
        "end 21 10",
    ];
    let events: [&[&str]; 3] = [&[ALONE], &CREATED[..2], &asked];
    expect_replay(&rt, rt.alloc(), &events, 0, &[&OF_CREATED[..14], &answers])
}
