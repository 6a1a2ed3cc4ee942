// A partition that gets a second replica: its log is copied entry by entry, each confirms what the other writes, the
// primary's role moves, and a node that starts again has the replica that it recorded.

use crate::partitions::{CREATED, OF_CREATED};
use crate::schedules::expect_replay;
use std::test::Fail;

/// Two nodes in domains of their own, one arbitrator.
const PAIR: &str =
    "{\"lease\":3000,\"answer\":1000,\"drift\":10,\"grain\":1,\"nodes\":[{\"node\":1,\"point\":\"0000000000000000\",\"domain\":1},{\"node\":2,\"point\":\"8000000000000000\",\"domain\":2}],\"arbiters\":[{\"arbiter\":1}],\"first\":1}";

/// Node 1 alone has two entries. Node 2 begins, is healed in, and confirms a third one: lines 16 to 47.
const HEALED: [&str; 7] = [
    "do 1 write 1 set a 7\nstart 2 0\ndo 2 link 1",
    "give 11\ngive 12\ngive 13\ngive 14\ngive 15",
    "do 1 heal 1 2",
    "give 16\ngive 17\ngive 18\ngive 19\ngive 20\ngive 21\ngive 22\ngive 23\ngive 24\ngive 25",
    "give 26\ngive 27\ngive 28\ngive 29\ngive 30\ngive 31\ngive 32\ngive 33\ngive 34\ngive 35",
    "do 1 write 1 set b 8",
    "give 36\ngive 37",
];

/// What is written of that: node 2 asks for the two entries one after another, and has the log before it has its role.
const OF_HEALED: [&str; 39] = [
    "16 0 1.1 0 accepted 1 0.1 2",
    "16 0 1.1 0 committed 1 0.1 2",
    "17 0 2.1 0 own - -",
    "18 0 2.1 0 sent 11-11",
    "19 0 1.1 0 own 0000000000000000-ffffffffffffffff 4000",
    "19 0 1.1 0 sent 12-12",
    "20 0 2.1 0 own - 4000",
    "20 0 2.1 0 sent 13-13",
    "21 0 1.1 0 sent 14-14",
    "22 0 2.1 0 sent 15-15",
    "24 0 1.1 0 sent 16-16",
    "25 0 a1 - sent 17-17",
    "26 0 1.1 0 sent 18-18",
    "27 0 1.1 0 promised 1 0.2",
    "27 0 1.1 0 sent 19-19",
    "28 0 1.1 0 sent 20-20",
    "29 0 a1 - sent 21-21",
    "30 0 1.1 0 sent 22-23",
    "31 0 1.1 0 adopted 1 0.2 2",
    "31 0 1.1 0 sent 24-24",
    "32 0 2.1 0 promised 1 0.2",
    "32 0 2.1 0 sent 25-25",
    "34 0 1.1 0 sent 26-26",
    "35 0 2.1 0 sent 27-27",
    "36 0 1.1 0 sent 28-28",
    "37 0 2.1 0 adopted 1 0.2 2",
    "37 0 2.1 0 sent 29-29",
    "38 0 1.1 0 sent 30-30",
    "39 0 a1 - sent 31-31",
    "40 0 1.1 0 sent 32-33",
    "41 0 1.1 0 primary 1 0.2",
    "41 0 1.1 0 sent 34-34",
    "42 0 2.1 0 sent 35-35",
    "44 0 1.1 0 configured 1 0.2",
    "45 0 1.1 0 accepted 1 0.2 3",
    "45 0 1.1 0 sent 36-36",
    "46 0 2.1 0 accepted 1 0.2 3",
    "46 0 2.1 0 sent 37-37",
    "47 0 1.1 0 committed 1 0.2 3",
];

/// The role moves to node 2, whose write node 1 confirms.
const SWAPPED: [&str; 7] = [
    "do 1 swap 1 2",
    "give 38\ngive 39\ngive 40\ngive 41\ngive 42\ngive 43\ngive 44\ngive 45\ngive 46\ngive 47",
    "give 48\ngive 49\ngive 50\ngive 51\ngive 52\ngive 53\ngive 54\ngive 55\ngive 56\ngive 57",
    "give 58\ngive 59\ngive 60\ngive 61\ngive 62\ngive 63",
    "do 2 write 1 set c 9",
    "give 64\ngive 65",
    "do 2 names 1 0000000000000000-ffffffffffffffff",
];

#[test]
fn the_role_moves_to_a_replica_that_took_the_log(rt: HostRuntime) -> Result<(), Fail> {
    let answers = [
        "48 0 1.1 0 sent 38-38",
        "49 0 a1 - sent 39-39",
        "50 0 1.1 0 sent 40-40",
        "51 0 1.1 0 promised 1 0.3",
        "51 0 1.1 0 sent 41-41",
        "52 0 1.1 0 sent 42-43",
        "53 0 1.1 0 sent 44-44",
        "54 0 2.1 0 promised 1 0.3",
        "54 0 2.1 0 sent 45-45",
        "56 0 1.1 0 sent 46-46",
        "57 0 a1 - sent 47-47",
        "58 0 1.1 0 sent 48-49",
        "59 0 1.1 0 adopted 1 0.3 3",
        "59 0 1.1 0 sent 50-50",
        "60 0 2.1 0 sent 51-51",
        "62 0 1.1 0 sent 52-52",
        "63 0 2.1 0 sent 53-53",
        "64 0 1.1 0 sent 54-54",
        "65 0 2.1 0 sent 55-55",
        "66 0 1.1 0 sent 56-56",
        "67 0 2.1 0 adopted 1 0.3 3",
        "67 0 2.1 0 sent 57-57",
        "68 0 1.1 0 sent 58-58",
        "69 0 a1 - sent 59-59",
        "70 0 1.1 0 sent 60-61",
        "71 0 1.1 0 sent 62-62",
        "72 0 2.1 0 primary 1 0.3",
        "72 0 2.1 0 sent 63-63",
        "74 0 1.1 0 configured 1 0.3",
        "75 0 2.1 0 accepted 1 0.3 4",
        "75 0 2.1 0 sent 64-64",
        "76 0 1.1 0 accepted 1 0.3 4",
        "76 0 1.1 0 sent 65-65",
        "77 0 2.1 0 committed 1 0.3 4",
        "78 0 2.1 0 names 1 a,c,b",
        "end 77 65",
    ];
    let events: [&[&str]; 4] = [&[PAIR], &CREATED, &HEALED, &SWAPPED];
    expect_replay(
        &rt,
        rt.alloc(),
        &events,
        0,
        &[&OF_CREATED, &OF_HEALED, &answers],
    )
}

/// Node 2 stops and begins again. Node 1 goes on with node 2's replica alone.
const RESTARTED: [&str; 6] = [
    "stop 2\nstart 2 0\ndo 2 link 1",
    "give 38\ngive 39\ngive 40\ngive 41\ngive 42",
    "do 1 lose 1 2",
    "give 43\ngive 44\ngive 45\ngive 46\ngive 47\ngive 48\ngive 49\ngive 50\ngive 51\ngive 52",
    "give 53\ngive 54",
    "do 2 write 1 set c 9\ndo 2 names 1 0000000000000000-ffffffffffffffff",
];

/// All three entries stand in the replica of 2.2, which nobody sent it.
#[test]
fn a_node_that_starts_again_has_its_replica(rt: HostRuntime) -> Result<(), Fail> {
    let answers = [
        "48 0 2.1 0 stopped",
        "49 0 2.2 0 own - -",
        "50 0 2.2 0 sent 38-38",
        "51 0 1.1 0 sent 39-39",
        "52 0 2.2 0 own - 4000",
        "52 0 2.2 0 sent 40-40",
        "53 0 1.1 0 sent 41-41",
        "54 0 2.2 0 sent 42-42",
        "56 0 1.1 0 sent 43-43",
        "57 0 a1 - sent 44-44",
        "58 0 1.1 0 sent 45-45",
        "59 0 2.2 0 promised 1 1.1",
        "59 0 2.2 0 sent 46-46",
        "60 0 1.1 0 sent 47-47",
        "61 0 a1 - sent 48-48",
        "62 0 1.1 0 sent 49-49",
        "63 0 2.2 0 adopted 1 1.1 3",
        "63 0 2.2 0 sent 50-50",
        "64 0 1.1 0 sent 51-51",
        "65 0 a1 - sent 52-52",
        "66 0 1.1 0 sent 53-53",
        "67 0 2.2 0 primary 1 1.1",
        "67 0 2.2 0 sent 54-54",
        "68 0 1.1 0 configured 1 1.1",
        "69 0 2.2 0 accepted 1 1.1 4",
        "69 0 2.2 0 committed 1 1.1 4",
        "70 0 2.2 0 names 1 a,c,b",
        "end 69 54",
    ];
    let events: [&[&str]; 4] = [&[PAIR], &CREATED, &HEALED, &RESTARTED];
    expect_replay(
        &rt,
        rt.alloc(),
        &events,
        0,
        &[&OF_CREATED, &OF_HEALED, &answers],
    )
}
