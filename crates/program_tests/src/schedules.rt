// Schedules over devices in memory: the status, and what is written. A test hands in the lines of its schedule, the
// first of them the configuration.

use crate::calls::{text_of, written};
use std::alloc::Global;
use std::process::Abort;
use std::test::Fail;

/// One node.
pub(crate) const ONE: &str =
    "{\"lease\":3000,\"answer\":1000,\"drift\":10,\"grain\":1,\"nodes\":[{\"node\":1,\"point\":\"0000000000000000\"}],\"arbiters\":[{\"arbiter\":1},{\"arbiter\":2},{\"arbiter\":3}],\"first\":1}";

/// Two nodes, half the ring apart.
pub(crate) const DUO: &str =
    "{\"lease\":3000,\"answer\":1000,\"drift\":10,\"grain\":1,\"nodes\":[{\"node\":1,\"point\":\"0000000000000000\"},{\"node\":2,\"point\":\"8000000000000000\"}],\"arbiters\":[{\"arbiter\":1},{\"arbiter\":2},{\"arbiter\":3}],\"first\":1}";

/// The same, where node 2 is first.
pub(crate) const DUO_OF_2: &str =
    "{\"lease\":3000,\"answer\":1000,\"drift\":10,\"grain\":1,\"nodes\":[{\"node\":1,\"point\":\"0000000000000000\"},{\"node\":2,\"point\":\"8000000000000000\"}],\"arbiters\":[{\"arbiter\":1},{\"arbiter\":2},{\"arbiter\":3}],\"first\":2}";

/// The same with a third node.
pub(crate) const TRIO: &str =
    "{\"lease\":3000,\"answer\":1000,\"drift\":10,\"grain\":1,\"nodes\":[{\"node\":1,\"point\":\"0000000000000000\"},{\"node\":2,\"point\":\"8000000000000000\"},{\"node\":3,\"point\":\"7000000000000000\"}],\"arbiters\":[{\"arbiter\":1},{\"arbiter\":2},{\"arbiter\":3}],\"first\":1}";

/// Eight nodes, an eighth of the ring apart, with longer leases.
pub(crate) const EIGHT: &str =
    "{\"lease\":30000,\"answer\":5000,\"drift\":10,\"grain\":1,\"nodes\":[{\"node\":1,\"point\":\"0000000000000000\"},{\"node\":2,\"point\":\"2000000000000000\"},{\"node\":3,\"point\":\"4000000000000000\"},{\"node\":4,\"point\":\"6000000000000000\"},{\"node\":5,\"point\":\"8000000000000000\"},{\"node\":6,\"point\":\"a000000000000000\"},{\"node\":7,\"point\":\"c000000000000000\"},{\"node\":8,\"point\":\"e000000000000000\"}],\"arbiters\":[{\"arbiter\":1},{\"arbiter\":2},{\"arbiter\":3}],\"first\":1}";

/// Replays the text, and expects the status and the lines that are written.
pub(crate) fn expect_text(
    rt: &impl Abort,
    alloc: Global,
    text: Vec<u8>,
    code: u8,
    lines: &[&[&str]],
) -> Result<(), Fail> {
    let left = written(alloc, &["replay"], text, Vec::new(alloc), Vec::new(alloc))?;
    let wanted = text_of(alloc, lines)?;
    left.expect(rt, code, wanted.as_slice());
    Ok(())
}

/// The same of these lines, each with its line feed.
pub(crate) fn expect_replay(
    rt: &impl Abort,
    alloc: Global,
    events: &[&[&str]],
    code: u8,
    lines: &[&[&str]],
) -> Result<(), Fail> {
    expect_text(rt, alloc, text_of(alloc, events)?, code, lines)
}

/// Replays the lines, and expects that they are good and what is written last.
pub(crate) fn expect_end(
    rt: &impl Abort,
    alloc: Global,
    events: &[&[&str]],
    last: &[&[&str]],
) -> Result<(), Fail> {
    let text = text_of(alloc, events)?;
    let left = written(alloc, &["replay"], text, Vec::new(alloc), Vec::new(alloc))?;
    let wanted = text_of(alloc, last)?;
    left.expect_end(rt, wanted.as_slice());
    Ok(())
}
