// Sources that give their bytes in pieces.
use crate::calls::{called, text_of, written};
use crate::schedules::{DUO, ONE};
use edge_io::{Failed, MemSink, Sink, Source};
use std::alloc::Global;
use std::process::Abort;
use std::test::Fail;

/// Gives one byte a call, and fails at the call of this number.
#[derive(Drop)]
struct Drops {
    bytes: Vec<u8>,
    at: usize,
    calls: u64,
    fails: u64,
    faults: u64,
}

impl Source for Drops {
    ghost use Rattle.std.specs.Prelude.{None};

    ghost left = { λ s. None };

    ghost faults = { λ s. s.faults };

    ghost plan = { λ s. None };

    fn read(&mut self, into: &mut [u8]) -> Result<usize, Failed> {
        self.calls = self.calls.saturating_add(1);
        if self.calls == self.fails {
            self.faults = self.faults.saturating_add(1);
            return Err(Failed);
        }
        match (into, self.bytes.get(self.at)) {
            ([first, ..], Some(byte)) => {
                *first = *byte;
                self.at = self.at.saturating_add(1);
                Ok(1)
            }
            _ => Ok(0),
        }
    }
}

/// A source of these bytes that fails at the call of this number, or at none where it is 0.
fn dropping(bytes: Vec<u8>, fails: u64) -> Drops {
    Drops {
        bytes,
        at: 0,
        calls: 0,
        fails,
        faults: 0,
    }
}

/// What is written of a good text that comes byte by byte.
fn written_by_bytes(rt: &impl Abort, alloc: Global, text: Vec<u8>) -> Result<MemSink, Fail> {
    let mut source = dropping(text, 0);
    let mut sink = MemSink::new(alloc, Vec::new(alloc));
    assert_eq!(rt; called(alloc, &["replay"], &mut source, &mut sink)?, 0);
    Ok(sink)
}

/// A schedule with a comment and a last line without its line feed.
fn greeting(alloc: Global) -> Result<Vec<u8>, Fail> {
    let lines = [
        DUO,
        "start 1 0",
        "# a comment",
        "start 2 0",
        "do 2 link 1 for 9000",
        "give 1",
        "give 2",
    ];
    let mut text = text_of(alloc, &[&lines])?;
    text.extend_from_slice(b"tick 100 1:100 2:100")?;
    Ok(text)
}

#[test]
fn one_byte_a_read_changes_nothing(rt: HostRuntime) -> Result<(), Fail> {
    let alloc = rt.alloc();
    let text = greeting(alloc)?;
    let whole = written(alloc, &["replay"], text, Vec::new(alloc), Vec::new(alloc))?;
    let bytes = written_by_bytes(&rt, alloc, greeting(alloc)?)?;
    whole.expect(&rt, 0, bytes.held());
    Ok(())
}

/// Expects what is written where the read of this number fails.
fn expect_before(rt: &impl Abort, alloc: Global, call: u64, text: &[u8]) -> Result<(), Fail> {
    let mut source = dropping(text_of(alloc, &[&[ONE, "start 1 0", "stop 1"]])?, call);
    let mut sink = MemSink::new(alloc, Vec::new(alloc));
    let code = called(alloc, &["replay"], &mut source, &mut sink)?;
    assert_eq!(rt; code, 3, "read {call} fails");
    assert_eq!(rt; sink.held(), text, "read {call} fails");
    Ok(())
}

#[test]
fn a_failing_read_leaves_the_lines_before_it(rt: HostRuntime) -> Result<(), Fail> {
    let alloc = rt.alloc();
    let second = text_of(alloc, &[&[ONE, "start 1 0"]])?.len() as u64;
    let third = text_of(alloc, &[&[ONE, "start 1 0", "stop 1"]])?.len() as u64;
    for call in 1..=third + 1 {
        let text = if call > third {
            b"2 0 1.1 0 own 0000000000000000-ffffffffffffffff -\n3 0 1.1 0 stopped\nfault read\n".as_slice()
        } else if call > second {
            b"2 0 1.1 0 own 0000000000000000-ffffffffffffffff -\nfault read\n".as_slice()
        } else {
            b"fault read\n".as_slice()
        };
        expect_before(&rt, alloc, call, text)?;
    }
    Ok(())
}
