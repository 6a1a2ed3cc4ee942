use crate::calls::text_of;
use crate::schedules::{DUO, TRIO, expect_replay, expect_text};
use std::test::Fail;

/// Node 2 asks node 1 for a link, wants points, and gets its flight: lines 2 to 20.
pub(crate) const JOIN: [&str; 19] = [
    "start 1 0",
    "start 2 0",
    "do 2 link 1",
    "give 1",
    "give 2",
    "give 3",
    "give 4",
    "give 5",
    "tick 100 1:100 2:100",
    "fire 2",
    "give 6",
    "give 7",
    "fire 1",
    "give 8",
    "give 9",
    "fire 1",
    "give 11",
    "fire 2",
    "give 12",
];

/// What is written of these lines, without the end.
pub(crate) const JOINED: [&str; 22] = [
    "2 0 1.1 0 own 0000000000000000-ffffffffffffffff -",
    "3 0 2.1 0 own - -",
    "4 0 2.1 0 sent 1-1",
    "5 0 1.1 0 own 0000000000000000-ffffffffffffffff 4000",
    "5 0 1.1 0 sent 2-2",
    "6 0 2.1 0 own - 4000",
    "6 0 2.1 0 sent 3-3",
    "7 0 1.1 0 sent 4-4",
    "8 0 2.1 0 sent 5-5",
    "11 100 2.1 100 sent 6-6",
    "12 100 1.1 100 sent 7-7",
    "13 100 2.1 100 own - 4100",
    "14 100 1.1 100 sent 8-8",
    "15 100 2.1 100 sent 9-9",
    "16 100 1.1 100 own 0000000000000000-ffffffffffffffff 4100",
    "17 100 1.1 100 gave 2.1 1 4000000000000001-bfffffffffffffff",
    "17 100 1.1 100 own 0000000000000000-4000000000000000,c000000000000000-ffffffffffffffff 4100",
    "17 100 1.1 100 sent 10-11",
    "18 100 2.1 100 took 1.1 1 4000000000000001-bfffffffffffffff",
    "18 100 2.1 100 own 4000000000000001-bfffffffffffffff 4100",
    "19 100 2.1 100 sent 12-12",
    "20 100 1.1 100 sent 13-13",
];

#[test]
fn a_node_joins(rt: HostRuntime) -> Result<(), Fail> {
    let events: [&[&str]; 2] = [&[DUO], &JOIN];
    let written: [&[&str]; 2] = [&JOINED, &["end 19 13"]];
    expect_replay(&rt, rt.alloc(), &events, 0, &written)
}

#[test]
fn a_flight_is_taken_once(rt: HostRuntime) -> Result<(), Fail> {
    let events: [&[&str]; 3] = [
        &[DUO],
        &JOIN[..17],
        &["give 11", "tick 4000 1:4100 2:4100", "give 11"],
    ];
    let written: [&[&str]; 2] = [
        &JOINED[..20],
        &[
            "21 4100 2.1 4100 left fence",
            "21 4100 2.1 4100 own - -",
            "unheld 1.1 0000000000000000-4000000000000000,c000000000000000-ffffffffffffffff",
            "unheld 2.1 4000000000000001-bfffffffffffffff",
            "end 20 11",
        ],
    ];
    expect_replay(&rt, rt.alloc(), &events, 0, &written)
}

#[test]
fn a_flight_stays_where_its_giver_stops(rt: HostRuntime) -> Result<(), Fail> {
    let events: [&[&str]; 3] = [&[DUO], &JOIN[..16], &["stop 1"]];
    let written: [&[&str]; 2] = [
        &JOINED[..18],
        &[
            "18 100 1.1 100 stopped",
            "unheld 1.1 0000000000000000-4000000000000000,c000000000000000-ffffffffffffffff",
            "flight 1.1 1 2.1 4000000000000001-bfffffffffffffff",
            "end 17 11",
        ],
    ];
    expect_replay(&rt, rt.alloc(), &events, 0, &written)
}

#[test]
fn a_frame_that_was_not_sent_is_not_given(rt: HostRuntime) -> Result<(), Fail> {
    let alloc = rt.alloc();
    let events: [&[&str]; 3] = [&[DUO], &JOIN[..10], &["give 7"]];
    let written: [&[&str]; 2] = [&JOINED[..10], &["fault nosuch 12"]];
    let mut text = text_of(alloc, &events)?;
    // The last line has no line feed.
    let _ = text.pop();
    expect_text(&rt, alloc, text, 8, &written)
}

#[test]
fn a_point_is_found_at_a_peer(rt: HostRuntime) -> Result<(), Fail> {
    let events: [&[&str]; 3] = [
        &[DUO],
        &JOIN,
        &["do 1 find 8000000000000000", "give 14", "give 15"],
    ];
    let written: [&[&str]; 2] = [
        &JOINED,
        &[
            "21 100 1.1 100 sent 14-14",
            "22 100 2.1 100 sent 15-15",
            "23 100 1.1 100 found 8000000000000000 2.1",
            "end 22 15",
        ],
    ];
    expect_replay(&rt, rt.alloc(), &events, 0, &written)
}

#[test]
fn a_node_joins_through_a_member(rt: HostRuntime) -> Result<(), Fail> {
    let events: [&[&str]; 3] = [
        &[TRIO],
        &JOIN,
        &["start 3 0", "do 3 join 1", "give 14", "give 15", "give 16"],
    ];
    let written: [&[&str]; 2] = [
        &JOINED,
        &[
            "21 100 3.1 0 own - -",
            "22 100 3.1 0 sent 14-14",
            "23 100 1.1 100 sent 15-15",
            "24 100 2.1 100 sent 16-16",
            "25 100 3.1 0 found 7000000000000000 2.1",
            "25 100 3.1 0 sent 17-17",
            "end 24 17",
        ],
    ];
    expect_replay(&rt, rt.alloc(), &events, 0, &written)
}
