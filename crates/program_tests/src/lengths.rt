use crate::schedules::{DUO, expect_replay};
use std::test::Fail;

/// Row by row as where a node joins and falls silent, on a link of 1000 ticks.
const SHORT: [&str; 31] = [
    "start 1 0",
    "start 2 0",
    "do 2 link 1 for 1000",
    "give 1",
    "give 2",
    "give 3",
    "give 4",
    "give 5",
    "tick 100 1:100 2:100",
    "fire 2",
    "give 6",
    "give 7",
    "fire 1",
    "give 8",
    "give 9",
    "fire 1",
    "give 11",
    "fire 2",
    "give 12",
    "start a1",
    "start a2",
    "tick 1000 1:1100 2:1100",
    "fire 1",
    "give 14",
    "give 15",
    "give 17",
    "give 18",
    "tick 2042 1:3142 2:3142",
    "fire 1",
    "tick 1 1:3143 2:3143",
    "fire 1",
];

/// What is written of these lines.
const SHORT_TAKEN_OVER: [&str; 31] = [
    "2 0 1.1 0 own 0000000000000000-ffffffffffffffff -",
    "3 0 2.1 0 own - -",
    "4 0 2.1 0 sent 1-1",
    "5 0 1.1 0 own 0000000000000000-ffffffffffffffff 2000",
    "5 0 1.1 0 sent 2-2",
    "6 0 2.1 0 own - 2000",
    "6 0 2.1 0 sent 3-3",
    "7 0 1.1 0 sent 4-4",
    "8 0 2.1 0 sent 5-5",
    "11 100 2.1 100 sent 6-6",
    "12 100 1.1 100 sent 7-7",
    "13 100 2.1 100 own - 2100",
    "14 100 1.1 100 sent 8-8",
    "15 100 2.1 100 sent 9-9",
    "16 100 1.1 100 own 0000000000000000-ffffffffffffffff 2100",
    "17 100 1.1 100 gave 2.1 1 4000000000000001-bfffffffffffffff",
    "17 100 1.1 100 own 0000000000000000-4000000000000000,c000000000000000-ffffffffffffffff 2100",
    "17 100 1.1 100 sent 10-11",
    "18 100 2.1 100 took 1.1 1 4000000000000001-bfffffffffffffff",
    "18 100 2.1 100 own 4000000000000001-bfffffffffffffff 2100",
    "19 100 2.1 100 sent 12-12",
    "20 100 1.1 100 sent 13-13",
    "24 1100 1.1 1100 accused 2.1",
    "24 1100 1.1 1100 sent 14-16",
    "25 1100 a1 - sent 17-17",
    "26 1100 a2 - sent 18-18",
    "28 1100 1.1 1100 heir 2.1 3143",
    "28 1100 1.1 1100 own 0000000000000000-4000000000000000,c000000000000000-ffffffffffffffff -",
    "32 3143 1.1 3143 tookover 2.1 4000000000000001-bfffffffffffffff",
    "32 3143 1.1 3143 own 0000000000000000-ffffffffffffffff -",
    "end 31 18",
];

#[test]
fn the_heir_of_a_short_link_waits_less(rt: HostRuntime) -> Result<(), Fail> {
    let events: [&[&str]; 2] = [&[DUO], &SHORT];
    let written: [&[&str]; 1] = [&SHORT_TAKEN_OVER];
    expect_replay(&rt, rt.alloc(), &events, 0, &written)
}
