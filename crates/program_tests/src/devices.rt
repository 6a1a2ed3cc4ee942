use crate::calls::{called, text_of, written};
use crate::schedules::ONE;
use edge_io::{EdgeRefusal, MemSource, Sink};
use fabric_top::Status;
use std::alloc::Global;
use std::process::Abort;
use std::test::Fail;

/// Replays the start of one node, where these reads and these writes fail, and expects the status and what is written.
fn expect_start(
    rt: &impl Abort,
    alloc: Global,
    reads: Vec<u64>,
    writes: Vec<u64>,
    code: u8,
    text: &[u8],
) -> Result<(), Fail> {
    let lines = text_of(alloc, &[&[ONE, "start 1 0"]])?;
    written(alloc, &["replay"], lines, reads, writes)?.expect(rt, code, text);
    Ok(())
}

#[test]
fn faults_of_devices_are_told(rt: HostRuntime) -> Result<(), Fail> {
    let alloc = rt.alloc();
    let none = Vec::new(alloc);
    expect_start(&rt, alloc, vec![in alloc; 1]?, none, 3, b"fault read\n")?;
    let none = Vec::new(alloc);
    let before = b"2 0 1.1 0 own 0000000000000000-ffffffffffffffff -\nfault read\n";
    expect_start(&rt, alloc, vec![in alloc; 2]?, none, 3, before)?;
    expect_start(&rt, alloc, Vec::new(alloc), vec![in alloc; 1]?, 4, b"")
}

/// Takes one byte a call, and fails from the call of this number on.
#[derive(Drop)]
struct Narrow {
    held: Vec<u8>,
    calls: u64,
    last: u64,
    faults: u64,
}

impl Sink for Narrow {
    ghost use Rattle.std.specs.Prelude.{None};

    ghost held = { λ s. None };

    ghost faults = { λ s. s.faults };

    ghost plan = { λ s. None };

    fn write(&mut self, piece: &[u8]) -> Result<usize, EdgeRefusal> {
        self.calls = self.calls.saturating_add(1);
        if self.calls > self.last {
            self.faults = self.faults.saturating_add(1);
            return Err(EdgeRefusal::Failed);
        }
        match piece {
            [] => Ok(0),
            [first, ..] => match self.held.push(*first) {
                Ok(()) => Ok(1),
                Err(_) => Err(EdgeRefusal::OutOfMemory),
            },
        }
    }
}

const START: &[u8] = b"2 0 1.1 0 own 0000000000000000-ffffffffffffffff -\nend 1 0\n";

/// A sink that fails behind so many bytes.
fn narrow_sink(alloc: Global, last: u64) -> Narrow {
    Narrow {
        held: Vec::new(alloc),
        calls: 0,
        last,
        faults: 0,
    }
}

fn expect_front(rt: &impl Abort, alloc: Global, last: u64) -> Result<(), Fail> {
    let mut source = MemSource::new(text_of(alloc, &[&[ONE, "start 1 0"]])?, Vec::new(alloc));
    let mut sink = narrow_sink(alloc, last);
    let code = called(alloc, &["replay"], &mut source, &mut sink)?;
    let fits = last >= START.len() as u64;
    assert_eq!(rt; code, if fits { 0 } else { 4 }, "after {last} writes");
    assert!(rt;
        START.starts_with(sink.held.as_slice()),
        "after {last} writes"
    );
    Ok(())
}

#[test]
fn a_sink_that_fails_midway_has_a_front(rt: HostRuntime) -> Result<(), Fail> {
    for last in 0..60 {
        expect_front(&rt, rt.alloc(), last)?;
    }
    Ok(())
}

fn expect_usage(rt: &impl Abort, alloc: Global, word: &str) -> Result<(), Fail> {
    let text = text_of(alloc, &[&[ONE]])?;
    let left = written(alloc, &[word], text, Vec::new(alloc), Vec::new(alloc))?;
    left.expect(rt, 2, b"fault usage\n");
    Ok(())
}

#[test]
fn other_words_are_usage(rt: HostRuntime) -> Result<(), Fail> {
    for word in ["", "replays", "--help"] {
        expect_usage(&rt, rt.alloc(), word)?;
    }
    assert_eq!(rt; Status::TableFull.code(), 15);
    Ok(())
}
