use crate::schedules::{DUO, ONE, expect_replay};
use std::test::Fail;

/// The first line, the lines behind it, the exit status, and what is written.
const SCHEDULES: [(&str, &str, u8, &str); 21] = [
    (
        ONE,
        "",
        0,
        "unheld 1.1 0000000000000000-ffffffffffffffff\nend 0 0",
    ),
    (
        ONE,
        "\n# a comment\nstart 1 7",
        0,
        "4 0 1.1 7 own 0000000000000000-ffffffffffffffff -\nend 1 0",
    ),
    (
        ONE,
        "start 1 0\nstop 1\nstart 1 0",
        0,
        "2 0 1.1 0 own 0000000000000000-ffffffffffffffff -\n3 0 1.1 0 stopped\n4 0 1.2 0 own - -\nunheld 1.1 0000000000000000-ffffffffffffffff\nend 3 0",
    ),
    (
        DUO,
        "start 2 5\nstart 1 0\ntick 100 1:101 2:105\nstop 2",
        0,
        "2 0 2.1 5 own - -\n3 0 1.1 0 own 0000000000000000-ffffffffffffffff -\n5 100 2.1 105 stopped\nend 4 0",
    ),
    (
        ONE,
        "start 1 0\ndo 1 find 00000000000000ff",
        0,
        "2 0 1.1 0 own 0000000000000000-ffffffffffffffff -\n3 0 1.1 0 found 00000000000000ff 1.1\nend 2 0",
    ),
    (
        DUO,
        "start 1 0\nstart 2 0\ndo 2 link 1 for 9000\ngive 1\ngive 2",
        0,
        "2 0 1.1 0 own 0000000000000000-ffffffffffffffff -\n3 0 2.1 0 own - -\n4 0 2.1 0 sent 1-1\n5 0 1.1 0 own 0000000000000000-ffffffffffffffff 4000\n5 0 1.1 0 sent 2-2\n6 0 2.1 0 own - 4000\n6 0 2.1 0 sent 3-3\nend 5 3",
    ),
    (
        ONE,
        "start 1 0\njunk 1 00",
        0,
        "2 0 1.1 0 own 0000000000000000-ffffffffffffffff -\nend 2 0",
    ),
    (
        ONE,
        "start 1 0\njunk 1 53010100020000000100010000000000000001",
        8,
        "2 0 1.1 0 own 0000000000000000-ffffffffffffffff -\nfault nosuch 3",
    ),
    (
        ONE,
        "start 1 0\njunk 1 0",
        6,
        "2 0 1.1 0 own 0000000000000000-ffffffffffffffff -\nfault line 3",
    ),
    (
        ONE,
        "start 1 0\ndo 1 resolve 1 a\ndo 1 names 1 0000000000000000-ffffffffffffffff",
        0,
        "2 0 1.1 0 own 0000000000000000-ffffffffffffffff -\n3 0 1.1 0 refused resolve notprimary\n4 0 1.1 0 refused names notprimary\nend 3 0",
    ),
    (
        ONE,
        "start 1 0\ntick 1000 1:1011\ntick 1000 1:2023",
        7,
        "2 0 1.1 0 own 0000000000000000-ffffffffffffffff -\nfault drift 4",
    ),
    (
        ONE,
        "start 1 0\ntick 100 1:102\ntick 100 1:204",
        7,
        "2 0 1.1 0 own 0000000000000000-ffffffffffffffff -\nfault drift 4",
    ),
    (
        DUO,
        "start 1 0\ntick 1 2:1",
        8,
        "2 0 1.1 0 own 0000000000000000-ffffffffffffffff -\nfault nosuch 3",
    ),
    (ONE, "start a4", 8, "fault nosuch 2"),
    (ONE, "tick 1 ", 6, "fault line 2"),
    (ONE, "start 1000 0", 6, "fault line 2"),
    (ONE, "tick 1000000000000000\ntick 1", 9, "fault large 3"),
    ("{\"first\":1", "", 5, "fault config not json"),
    (
        "{\"lease\":3000,\"answer\":1000,\"drift\":10,\"grain\":1,\"nodes\":[{\"node\":1,\"point\":\"0000000000000000\"}],\"arbiters\":[{\"arbiter\":1},{\"arbiter\":2},{\"arbiter\":3}],\"first\":",
        "start 1 0",
        5,
        "fault config not json",
    ),
    (
        "{\"lease\":3000,\"answer\":1000,\"drift\":10,\"grain\":1,\"nodes\":[{\"node\":1,\"point\":\"0000000000000000\"}],\"arbiters\":[{\"arbiter\":1},{\"arbiter\":2},{\"arbiter\":3}],\"first\":1,\"note\":[{\"a\":[1]},[]]}",
        "start 1 0",
        0,
        "2 0 1.1 0 own 0000000000000000-ffffffffffffffff -\nend 1 0",
    ),
    (
        "{\"lease\":3000,\"answer\":1000,\"drift\":200,\"grain\":1,\"nodes\":[{\"node\":1,\"point\":\"0000000000000000\"}],\"arbiters\":[{\"arbiter\":1},{\"arbiter\":2},{\"arbiter\":3}],\"first\":1}",
        "",
        5,
        "fault config range drift 200",
    ),
];

#[test]
fn schedules_are_answered(rt: HostRuntime) -> Result<(), Fail> {
    for (first, lines, code, written) in &SCHEDULES {
        let events: [&[&str]; 1] = [&[*first, *lines]];
        expect_replay(&rt, rt.alloc(), &events, *code, &[&[*written]])?;
    }
    Ok(())
}

#[test]
fn an_empty_source_has_no_configuration(rt: HostRuntime) -> Result<(), Fail> {
    expect_replay(&rt, rt.alloc(), &[], 5, &[&["fault config not json"]])
}
