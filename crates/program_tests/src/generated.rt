// Generated schedules and their summaries.

use crate::calls::{called, written};
use edge_io::{MemSink, MemSource};
use std::alloc::Global;
use std::process::Abort;
use std::test::Fail;

/// The words, and what is written.
type Call = ([&'static str; 4], &'static str);

const CALLS: [Call; 3] = [
    (
        ["generate", "1", "1", "1"],
        "{\"lease\":3000,\"answer\":1000,\"drift\":10,\"grain\":1,\"nodes\":[{\"node\":1,\"point\":\"0000000000000000\",\"domain\":1}],\"arbiters\":[{\"arbiter\":1},{\"arbiter\":2},{\"arbiter\":3}],\"first\":1}\nstart a1\nstart a2\nstart a3\nstart 1 0\ntick 100 1:100\nfire 1\n",
    ),
    (
        ["drill", "1", "1", "1"],
        "events 6\nframes 0\ntookover 0\nleft 0\nheld 1\n",
    ),
    (
        ["drill", "7", "8", "500"],
        "events 15647\nframes 11447\ntookover 1\nleft 0\nheld 4\n",
    ),
];

fn expect_call(rt: &impl Abort, alloc: Global, call: &Call) -> Result<(), Fail> {
    let nothing = Vec::new(alloc);
    let left = written(alloc, &call.0, nothing, Vec::new(alloc), Vec::new(alloc))?;
    left.expect(rt, 0, call.1.as_bytes());
    Ok(())
}

#[test]
fn schedules_are_generated(rt: HostRuntime) -> Result<(), Fail> {
    for call in &CALLS {
        expect_call(&rt, rt.alloc(), call)?;
    }
    Ok(())
}

/// A schedule of many pages, as text.
fn long_schedule(alloc: Global) -> Result<Vec<u8>, Fail> {
    let mut nothing = MemSource::new(Vec::new(alloc), Vec::new(alloc));
    let mut sink = MemSink::new(alloc, Vec::new(alloc));
    called(
        alloc,
        &["generate", "7", "8", "500"],
        &mut nothing,
        &mut sink,
    )?;
    Ok(sink.held().to_vec(alloc)?)
}

/// Both texts are longer than what waits in memory, so they go to the sink before they end.
#[test]
fn a_long_text_is_written_whole(rt: HostRuntime) -> Result<(), Fail> {
    let alloc = rt.alloc();
    let schedule = long_schedule(alloc)?;
    assert!(rt; schedule.len() == 174_166);
    let left = written(
        alloc,
        &["replay"],
        schedule,
        Vec::new(alloc),
        Vec::new(alloc),
    )?;
    left.expect_end(&rt, b"end 15647 11447\n".as_slice());
    Ok(())
}
