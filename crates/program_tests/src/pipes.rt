// What is written while a schedule still comes: before each read of a source that gives a piece a read, and where
// memory is short.
ghost use Rattle.std.specs.Prelude.{◌≡◌, [], codes};

use crate::calls::{called, text_of};
use crate::schedules::ONE;
use edge_io::{EdgeRefusal, Failed, MemSink, MemSource, Sink, Source};
use fabric_terms::OutOfMemory;
use fabric_top::Status;
use ring_world::{Acted, World};
use schedule_replay::{RunObserver, run_schedule};
use std::alloc::Global;
use std::cell::Cell;
use std::process::Abort;
use std::test::Fail;
use text_fields::push_bytes;

/// Gives these pieces one a read, and then ends.
#[derive(Drop)]
struct Pipe<'a> {
    pieces: &'a [&'a str],
    reads: &'a Cell<usize>,
}

impl Source for Pipe<'_> {
    ghost use Rattle.std.specs.Prelude.{None};

    ghost left = { λ s. None };

    ghost faults = { λ s. 0 };

    ghost plan = { λ s. None };

    fn read(&mut self, into: &mut [u8]) -> Result<usize, Failed> {
        let place = self.reads.get();
        self.reads.set(place.saturating_add(1));
        let piece = match self.pieces.get(place) {
            Some(piece) => piece.as_bytes(),
            None => &[],
        };
        let count = piece.len().min(into.len());
        into[..count].copy_from_slice(&piece[..count]);
        Ok(count)
    }
}

/// Holds what is written, each piece behind the number of reads before it.
#[derive(Drop)]
struct Log<'a> {
    text: Vec<u8>,
    reads: &'a Cell<usize>,
}

impl Sink for Log<'_> {
    ghost use Rattle.std.specs.Prelude.{None};

    ghost held = { λ s. None };

    ghost faults = { λ s. 0 };

    ghost plan = { λ s. None };

    fn write(&mut self, piece: &[u8]) -> Result<usize, EdgeRefusal> {
        let reads = b"0123456789".get(self.reads.get()).copied().unwrap_or(b'?');
        self.text.push(reads)?;
        self.text.extend_from_slice(b"> ")?;
        self.text.extend_from_slice(piece)?;
        Ok(piece.len())
    }
}

/// Runs the pieces, and expects what is written behind how many reads.
fn expect_log(
    rt: &impl Abort,
    alloc: Global,
    word: &str,
    pieces: &[&str],
    log: &[u8],
) -> Result<(), Fail> {
    let reads = Cell::new(0);
    let mut source = Pipe {
        pieces,
        reads: &reads,
    };
    let mut sink = Log {
        text: Vec::new(alloc),
        reads: &reads,
    };
    assert_eq!(rt; called(alloc, &[word], &mut source, &mut sink)?, 0);
    assert_eq!(rt; sink.text.as_slice(), log);
    Ok(())
}

#[test]
fn each_line_is_answered_before_the_next_is_read(rt: HostRuntime) -> Result<(), Fail> {
    let pieces = [ONE, "\n", "start 1 0\n", "stop 1\n"];
    let report =
        b"3> 2 0 1.1 0 own 0000000000000000-ffffffffffffffff -\n4> 3 0 1.1 0 stopped\n5> unheld 1.1 0000000000000000-ffffffffffffffff\nend 2 0\n";
    expect_log(&rt, rt.alloc(), "replay", &pieces, report)?;
    let transcript =
        b"2> transcript 0\n3> 2 clocks 1.1:0\n2 0 1.1 0 own 0000000000000000-ffffffffffffffff -\n4> 3 clocks\n3 0 1.1 0 stopped\n";
    expect_log(&rt, rt.alloc(), "trace", &pieces, transcript)
}

#[test]
fn half_a_line_holds_nothing_back(rt: HostRuntime) -> Result<(), Fail> {
    let pieces = [ONE, "\nstart 1 0\nst", "op", " 1"];
    let log =
        b"2> 2 0 1.1 0 own 0000000000000000-ffffffffffffffff -\n5> 3 0 1.1 0 stopped\n6> unheld 1.1 0000000000000000-ffffffffffffffff\nend 2 0\n";
    expect_log(&rt, rt.alloc(), "replay", &pieces, log)
}

#[test]
fn lines_that_come_together_are_written_together(rt: HostRuntime) -> Result<(), Fail> {
    let pieces = [ONE, "\nstart 1 0\nstop 1\nstart 1 0\n"];
    let log =
        b"2> 2 0 1.1 0 own 0000000000000000-ffffffffffffffff -\n3 0 1.1 0 stopped\n4 0 1.2 0 own - -\n3> unheld 1.1 0000000000000000-ffffffffffffffff\nend 3 0\n";
    expect_log(&rt, rt.alloc(), "replay", &pieces, log)
}

/// Tells of each event that it was told, until memory is short in the middle of a line.
#[derive(Drop)]
struct Forgetful {
    events: u64,
}

impl RunObserver for Forgetful {
    ghost telling = { record {
      heading = codes "begun\n";
      told = λ c h. codes "told\n";
      ends = λ c h text. text ≡ [];
    } };

    ghost knows = { λ s c h. Unit {0} };

    fn heading(&self) -> &[u8] {
        b"begun\n"
    }

    fn tell(
        &mut self,
        _world: &World,
        _line: u64,
        _acted: &Option<Acted>,
        text: &mut Vec<u8>,
    ) -> Result<(), OutOfMemory> {
        match self.events.checked_sub(1) {
            Some(events) => {
                self.events = events;
                push_bytes(text, b"told\n")
            }
            None => {
                push_bytes(text, b"to")?;
                Err(OutOfMemory)
            }
        }
    }

    fn end(&self, _world: &World, _text: &mut Vec<u8>) -> Result<(), OutOfMemory> {
        Ok(())
    }
}

#[test]
fn whole_lines_are_written_where_memory_is_short(rt: HostRuntime) -> Result<(), Fail> {
    let alloc = rt.alloc();
    let lines = text_of(alloc, &[&[ONE, "start 1 0", "stop 1", "start 1 0"]])?;
    let mut source = MemSource::new(lines, Vec::new(alloc));
    let mut sink = MemSink::new(alloc, Vec::new(alloc));
    let ended = run_schedule(alloc, &mut Forgetful { events: 2 }, &mut source, &mut sink);
    assert_eq!(rt; ended, Status::OutOfMemory);
    assert_eq!(rt; sink.held(), b"begun\ntold\ntold\n".as_slice());
    Ok(())
}
