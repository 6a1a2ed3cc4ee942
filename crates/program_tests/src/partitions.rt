use crate::schedules::expect_replay;
use std::test::Fail;

/// One node, one arbitrator.
pub(crate) const ALONE: &str =
    "{\"lease\":3000,\"answer\":1000,\"drift\":10,\"grain\":1,\"nodes\":[{\"node\":1,\"point\":\"0000000000000000\"}],\"arbiters\":[{\"arbiter\":1}],\"first\":1}";

/// Partition 1 is created at node 1, and written: lines 2 to 15.
pub(crate) const CREATED: [&str; 3] = [
    "start 1 0\nstart a1\ndo 1 create 1 1",
    "give 1\ngive 2\ngive 3\ngive 4\ngive 5\ngive 6\ngive 7\ngive 8\ngive 9\ngive 10",
    "do 1 write 1 hello",
];

/// Its data is given up for what node 1 has, and it is written again: lines 16 to 29.
pub(crate) const LOST: [&str; 2] = [
    "do 1 lose 1 1\ngive 11\ngive 12\ngive 13\ngive 14\ngive 15\ngive 16\ngive 17",
    "give 18\ngive 19\ngive 20\ngive 21\ngive 22\ndo 1 write 1 again",
];

/// What is written of the first: the frames of one reconfiguration, and the write that a majority of one has confirmed
/// at once.
pub(crate) const OF_CREATED: [&str; 16] = [
    "2 0 1.1 0 own 0000000000000000-ffffffffffffffff -",
    "4 0 1.1 0 sent 1-1",
    "5 0 a1 - sent 2-2",
    "6 0 1.1 0 sent 3-3",
    "7 0 a1 - sent 4-4",
    "8 0 1.1 0 sent 5-5",
    "9 0 1.1 0 promised 1 0.1",
    "9 0 1.1 0 sent 6-6",
    "10 0 1.1 0 sent 7-7",
    "11 0 a1 - sent 8-8",
    "12 0 1.1 0 sent 9-9",
    "13 0 1.1 0 primary 1 0.1",
    "13 0 1.1 0 sent 10-10",
    "14 0 1.1 0 configured 1 0.1",
    "15 0 1.1 0 accepted 1 0.1 1",
    "15 0 1.1 0 committed 1 0.1 1",
];

#[test]
fn a_partition_is_created_and_written(rt: HostRuntime) -> Result<(), Fail> {
    let asked = "do 1 units 0000000000000000-ffffffffffffffff\ndo 1 create 1 1";
    let answers = [
        "16 0 1.1 0 units 1",
        "17 0 1.1 0 refused create exists",
        "end 16 10",
    ];
    let events: [&[&str]; 3] = [&[ALONE], &CREATED, &[asked]];
    expect_replay(&rt, rt.alloc(), &events, 0, &[&OF_CREATED, &answers])
}

#[test]
fn what_cannot_be_written_or_placed_is_refused(rt: HostRuntime) -> Result<(), Fail> {
    let asked = "do 1 write 2 x\ndo 1 create 2 3\ngive 11\ngive 12";
    let answers = [
        "16 0 1.1 0 refused write notprimary",
        "17 0 1.1 0 sent 11-11",
        "18 0 a1 - sent 12-12",
        "19 0 1.1 0 refused create toofew 1",
        "end 18 12",
    ];
    let events: [&[&str]; 3] = [&[ALONE], &CREATED, &[asked]];
    expect_replay(&rt, rt.alloc(), &events, 0, &[&OF_CREATED, &answers])
}

#[test]
fn a_loss_of_data_opens_a_number(rt: HostRuntime) -> Result<(), Fail> {
    let answers = [
        "16 0 1.1 0 sent 11-11",
        "17 0 a1 - sent 12-12",
        "18 0 1.1 0 sent 13-13",
        "19 0 1.1 0 promised 1 1.1",
        "19 0 1.1 0 sent 14-14",
        "20 0 1.1 0 sent 15-15",
        "21 0 a1 - sent 16-16",
        "22 0 1.1 0 sent 17-17",
        "23 0 1.1 0 adopted 1 1.1 1",
        "23 0 1.1 0 sent 18-18",
        "24 0 1.1 0 sent 19-19",
        "25 0 a1 - sent 20-20",
        "26 0 1.1 0 sent 21-21",
        "27 0 1.1 0 primary 1 1.1",
        "27 0 1.1 0 sent 22-22",
        "28 0 1.1 0 configured 1 1.1",
        "29 0 1.1 0 accepted 1 1.1 2",
        "29 0 1.1 0 committed 1 1.1 2",
        "end 28 22",
    ];
    let events: [&[&str]; 3] = [&[ALONE], &CREATED, &LOST];
    expect_replay(&rt, rt.alloc(), &events, 0, &[&OF_CREATED, &answers])
}
