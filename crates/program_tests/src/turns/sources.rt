use crate::turns::configs::DUO;
use crate::turns::memory::{Call, NONE, expect_kept, keeper};
use std::alloc::Global;
use std::process::Abort;
use std::test::Fail;

/// The words, a line behind the configuration of two nodes, the next line, the status and what is written.
type SourceCase = (
    &'static [&'static str],
    &'static str,
    &'static str,
    u8,
    &'static str,
);

const SOURCES: [SourceCase; 12] = [
    (&["node", "3", "1"], "x", "", 8, "fault nosuch 1"),
    (&["arbiter", "4", "1"], "x", "", 8, "fault nosuch 1"),
    (&["arbiter", "1", "1"], "#", "1 link 2", 6, "fault line 3"),
    (&["node", "1", "2"], "0 link 2", "", 6, "fault line 2"),
    (&["node", "1", "2"], "3 link 2", "", 6, "fault line 2"),
    (
        &["node", "1", "2"],
        "2 link 2",
        "1 part 2",
        6,
        "fault line 3",
    ),
    (&["node", "1", "2"], "1 link 1", "", 8, "fault nosuch 2"),
    (
        &["node", "1", "2"],
        "1 resolve 1 a,b",
        "",
        6,
        "fault line 2",
    ),
    (&["cluster", "2"], "1 link 2", "", 6, "fault line 2"),
    (&["cluster", "2"], "1 3 link 2", "", 8, "fault nosuch 2"),
    (
        &["cluster", "2"],
        "2 1 link 2",
        "1 2 link 1",
        6,
        "fault line 3",
    ),
    (&["node", "0", "1"], "", "", 2, "fault usage"),
];

/// Expects that the call is refused so, and that nothing is kept.
fn expect_refused(rt: &impl Abort, alloc: Global, source: &SourceCase) -> Result<(), Fail> {
    let mut keeps = keeper(alloc, NONE)?;
    let refused = Call {
        words: source.0,
        lines: &[DUO, source.1, source.2],
        arrivals: &[],
        readings: &[0],
    };
    refused.expect(rt, alloc, &mut keeps, NONE, (source.3, &[source.4], 0))?;
    expect_kept(rt, &mut keeps, 1, &[])
}

#[test]
fn sources_are_refused(rt: HostRuntime) -> Result<(), Fail> {
    for source in &SOURCES {
        expect_refused(&rt, rt.alloc(), source)?;
    }
    Ok(())
}

/// A comment of this length.
fn comment(alloc: Global, length: usize) -> Result<String, Fail> {
    let mut text = String::new(alloc);
    for _ in 0..length {
        text.push_str("#")?;
    }
    Ok(text)
}

fn expect_large(rt: &impl Abort, alloc: Global, lines: &[&str], wanted: &str) -> Result<(), Fail> {
    let long = Call {
        words: &["node", "1", "1"],
        lines,
        arrivals: &[],
        readings: &[0],
    };
    let mut keeps = keeper(alloc, NONE)?;
    long.expect(rt, alloc, &mut keeps, NONE, (9, &[wanted], 0))?;
    expect_kept(rt, &mut keeps, 1, &[])
}

#[test]
fn a_line_that_is_too_long_is_refused(rt: HostRuntime) -> Result<(), Fail> {
    let alloc = rt.alloc();
    let first = comment(alloc, 65_537)?;
    expect_large(&rt, alloc, &[first.as_str()], "fault large 1")?;
    let second = comment(alloc, 4_097)?;
    expect_large(&rt, alloc, &[DUO, second.as_str()], "fault large 2")
}
