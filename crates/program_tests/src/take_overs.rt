use crate::joins::{JOIN, JOINED};
use crate::schedules::{DUO, DUO_OF_2, expect_replay};
use std::test::Fail;

/// Node 2 is silent from line 21 on, and node 1 takes over: lines 21 to 32.
const SILENCE: [&str; 12] = [
    "start a1",
    "start a2",
    "tick 3000 1:3100 2:3100",
    "fire 1",
    "give 14",
    "give 15",
    "give 17",
    "give 18",
    "tick 4082 1:7182 2:7182",
    "fire 1",
    "tick 1 1:7183 2:7183",
    "fire 1",
];

/// What is written of these lines.
const TAKEN_OVER: [&str; 9] = [
    "24 3100 1.1 3100 accused 2.1",
    "24 3100 1.1 3100 sent 14-16",
    "25 3100 a1 - sent 17-17",
    "26 3100 a2 - sent 18-18",
    "28 3100 1.1 3100 heir 2.1 7183",
    "28 3100 1.1 3100 own 0000000000000000-4000000000000000,c000000000000000-ffffffffffffffff -",
    "32 7183 1.1 7183 tookover 2.1 4000000000000001-bfffffffffffffff",
    "32 7183 1.1 7183 own 0000000000000000-ffffffffffffffff -",
    "end 31 18",
];

/// Each accuses the other: lines 21 to 36.
const BOTH: [&str; 16] = [
    "start a1",
    "start a2",
    "tick 3000 1:3100 2:3100",
    "fire 1",
    "fire 2",
    "give 14",
    "give 18",
    "give 17",
    "give 15",
    "give 20",
    "give 23",
    "give 21",
    "give 22",
    "tick 1000 1:4100 2:4100",
    "fire 1",
    "fire 2",
];

/// What is written of these lines.
const BOTH_LEFT: [&str; 15] = [
    "24 3100 1.1 3100 accused 2.1",
    "24 3100 1.1 3100 sent 14-16",
    "25 3100 2.1 3100 accused 1.1",
    "25 3100 2.1 3100 sent 17-19",
    "26 3100 a1 - sent 20-20",
    "27 3100 a2 - sent 21-21",
    "28 3100 a1 - sent 22-22",
    "29 3100 a2 - sent 23-23",
    "35 4100 1.1 4100 left fence",
    "35 4100 1.1 4100 own - -",
    "36 4100 2.1 4100 left fence",
    "36 4100 2.1 4100 own - -",
    "unheld 1.1 0000000000000000-4000000000000000,c000000000000000-ffffffffffffffff",
    "unheld 2.1 4000000000000001-bfffffffffffffff",
    "end 35 23",
];

/// A late acknowledgement prolongs a lease from its stamp only: lines 21 to 36.
const LATE: [&str; 16] = [
    "start a1",
    "start a2",
    "tick 2000 1:2100 2:2100",
    "fire 2",
    "give 14",
    "tick 1000 1:3100 2:3100",
    "fire 1",
    "give 16",
    "give 17",
    "give 19",
    "give 20",
    "give 15",
    "tick 3000 1:6100 2:6100",
    "fire 2",
    "tick 1083 1:7183 2:7183",
    "fire 1",
];

/// What is written of these lines.
const LEFT_BEFORE: [&str; 14] = [
    "24 2100 2.1 2100 sent 14-14",
    "25 2100 1.1 2100 sent 15-15",
    "27 3100 1.1 3100 accused 2.1",
    "27 3100 1.1 3100 sent 16-18",
    "28 3100 a1 - sent 19-19",
    "29 3100 a2 - sent 20-20",
    "31 3100 1.1 3100 heir 2.1 7183",
    "31 3100 1.1 3100 own 0000000000000000-4000000000000000,c000000000000000-ffffffffffffffff -",
    "32 3100 2.1 3100 own 4000000000000001-bfffffffffffffff 6100",
    "34 6100 2.1 6100 left fence",
    "34 6100 2.1 6100 own - -",
    "36 7183 1.1 7183 tookover 2.1 4000000000000001-bfffffffffffffff",
    "36 7183 1.1 7183 own 0000000000000000-ffffffffffffffff -",
    "end 35 20",
];

/// Node 2 never sees the offer of node 1.
const UNSEEN: [&str; 12] = [
    "start 1 0",
    "start 2 0",
    "do 2 link 1",
    "give 1",
    "start a1",
    "start a2",
    "tick 3000 1:3000 2:3000",
    "fire 1",
    "give 3",
    "give 4",
    "give 6",
    "give 7",
];

/// What is written of these lines.
const NOTHING_TAKEN: [&str; 12] = [
    "2 0 1.1 0 own - -",
    "3 0 2.1 0 own 0000000000000000-ffffffffffffffff -",
    "4 0 2.1 0 sent 1-1",
    "5 0 1.1 0 own - 4000",
    "5 0 1.1 0 sent 2-2",
    "9 3000 1.1 3000 accused 2.1",
    "9 3000 1.1 3000 sent 3-5",
    "10 3000 a1 - sent 6-6",
    "11 3000 a2 - sent 7-7",
    "13 3000 1.1 3000 discharged 2.1",
    "13 3000 1.1 3000 own - -",
    "end 12 7",
];

#[test]
fn an_heir_takes_over_after_its_wait(rt: HostRuntime) -> Result<(), Fail> {
    let events: [&[&str]; 3] = [&[DUO], &JOIN, &SILENCE];
    let written: [&[&str]; 2] = [&JOINED, &TAKEN_OVER];
    expect_replay(&rt, rt.alloc(), &events, 0, &written)
}

#[test]
fn who_accuse_each_other_both_leave(rt: HostRuntime) -> Result<(), Fail> {
    let events: [&[&str]; 3] = [&[DUO], &JOIN, &BOTH];
    let written: [&[&str]; 2] = [&JOINED, &BOTH_LEFT];
    expect_replay(&rt, rt.alloc(), &events, 0, &written)
}

#[test]
fn the_silent_node_leaves_before_it_is_taken_over(rt: HostRuntime) -> Result<(), Fail> {
    let events: [&[&str]; 3] = [&[DUO], &JOIN, &LATE];
    let written: [&[&str]; 2] = [&JOINED, &LEFT_BEFORE];
    expect_replay(&rt, rt.alloc(), &events, 0, &written)
}

#[test]
fn who_has_no_record_takes_over_nothing(rt: HostRuntime) -> Result<(), Fail> {
    let events: [&[&str]; 2] = [&[DUO_OF_2], &UNSEEN];
    let written: [&[&str]; 1] = [&NOTHING_TAKEN];
    expect_replay(&rt, rt.alloc(), &events, 0, &written)
}

#[test]
fn a_restarted_arbitrator_rules_as_before(rt: HostRuntime) -> Result<(), Fail> {
    let events: [&[&str]; 4] = [
        &[DUO],
        &JOIN,
        &SILENCE[..5],
        &["stop a1", "start a1", "give 14"],
    ];
    let written: [&[&str]; 3] = [
        &JOINED,
        &TAKEN_OVER[..3],
        &[
            "26 3100 a1 - stopped",
            "28 3100 a1 - sent 18-18",
            "end 27 18",
        ],
    ];
    expect_replay(&rt, rt.alloc(), &events, 0, &written)
}
