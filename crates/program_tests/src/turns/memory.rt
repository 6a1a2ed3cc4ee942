// Devices in memory, a call of the program over them, and what they have then.

use crate::calls::{text_of, words_of};
use edge_io::{Keeper, MemClock, MemKeeper, MemLinks, MemSink, MemSource};
use fabric_top::{Status, fabric_main};
use std::alloc::Global;
use std::process::Abort;
use std::test::Fail;

/// What arrives: each datagram at its actor, or that none is there.
pub(crate) type Arrival = (u16, Option<&'static [u8]>);

/// Which call of which device fails, counted from 1; 0 is none.
#[derive(Clone, Copy)]
pub(crate) struct Failing {
    pub(crate) source: u64,
    pub(crate) sink: u64,
    pub(crate) links: u64,
    pub(crate) keeper: u64,
}

/// No call fails.
pub(crate) const NONE: Failing = Failing {
    source: 0,
    sink: 0,
    links: 0,
    keeper: 0,
};

fn calls(alloc: Global, call: u64) -> Result<Vec<u64>, Fail> {
    let mut calls = Vec::new(alloc);
    if call > 0 {
        calls.push(call)?;
    }
    Ok(calls)
}

/// A keeper of no records.
pub(crate) fn keeper(alloc: Global, failing: Failing) -> Result<MemKeeper, Fail> {
    Ok(MemKeeper::new(alloc, Vec::new(alloc), calls(alloc, failing.keeper)?))
}

fn arriving(alloc: Global, arrivals: &[Arrival]) -> Result<Vec<(u16, Option<Vec<u8>>)>, Fail> {
    let mut all = Vec::new(alloc);
    for (actor, datagram) in arrivals {
        let bytes = match datagram {
            Some(bytes) => Some(bytes.to_vec(alloc)?),
            None => None,
        };
        all.push((*actor, bytes))?;
    }
    Ok(all)
}

fn source_of(alloc: Global, lines: &[&str], failing: u64) -> Result<MemSource, Fail> {
    let failing = calls(alloc, failing)?;
    Ok(MemSource::new(text_of(alloc, &[lines])?, failing))
}

fn clock_of(alloc: Global, readings: &[u64]) -> Result<MemClock, Fail> {
    Ok(MemClock::new(readings.to_vec(alloc)?))
}

fn sink_of(alloc: Global, failing: u64) -> Result<MemSink, Fail> {
    Ok(MemSink::new(alloc, calls(alloc, failing)?))
}

fn links_of(alloc: Global, arrivals: &[Arrival], failing: u64) -> Result<MemLinks, Fail> {
    let failing = calls(alloc, failing)?;
    Ok(MemLinks::new(alloc, arriving(alloc, arrivals)?, failing))
}

/// Links at which these datagrams arrive at node 1.
fn links_to_one(alloc: Global, datagrams: Vec<Vec<u8>>) -> Result<MemLinks, Fail> {
    let mut all = Vec::new(alloc);
    for datagram in datagrams {
        all.push((1, Some(datagram)))?;
    }
    Ok(MemLinks::new(alloc, all, Vec::new(alloc)))
}

/// A call of the program: its words, the lines of its source, what arrives, and what its clock reads.
#[derive(Clone, Copy)]
pub(crate) struct Call<'a> {
    pub(crate) words: &'a [&'a str],
    pub(crate) lines: &'a [&'a str],
    pub(crate) arrivals: &'a [Arrival],
    pub(crate) readings: &'a [u64],
}

/// What a call leaves: its status, what it wrote, and its links.
#[derive(Drop)]
pub(crate) struct Left {
    pub(crate) code: u8,
    pub(crate) sink: MemSink,
    pub(crate) links: MemLinks,
}

impl Left {
    /// Expects the status, what is written, and how many datagrams are sent.
    pub(crate) fn expect(&self, rt: &impl Abort, code: u8, text: &[u8], sent: usize) {
        assert_eq!(rt; self.code, code);
        assert_eq!(rt; self.sink.held(), text);
        assert_eq!(rt; self.links.sent().len(), sent);
    }
}

impl Call<'_> {
    /// A sink and links before the call.
    fn unused(&self, alloc: Global, failing: Failing) -> Result<Left, Fail> {
        let links = links_of(alloc, self.arrivals, failing.links)?;
        Ok(Left {
            code: 0,
            sink: sink_of(alloc, failing.sink)?,
            links,
        })
    }

    /// The status of a call over these records, this sink and these links. The read of this number fails.
    fn status(
        &self,
        alloc: Global,
        read: u64,
        keeps: &mut MemKeeper,
        sink: &mut MemSink,
        links: &mut MemLinks,
    ) -> Result<Status, Fail> {
        let words = words_of(alloc, self.words)?;
        let mut source = source_of(alloc, self.lines, read)?;
        let mut clock = clock_of(alloc, self.readings)?;
        Ok(fabric_main(alloc, &words, &mut source, sink, links, keeps, &mut clock))
    }

    /// Calls the program over these records.
    pub(crate) fn run(
        &self,
        alloc: Global,
        keeps: &mut MemKeeper,
        failing: Failing,
    ) -> Result<Left, Fail> {
        let mut left = self.unused(alloc, failing)?;
        left.code = self
            .status(
                alloc,
                failing.source,
                keeps,
                &mut left.sink,
                &mut left.links,
            )?
            .code();
        Ok(left)
    }

    /// Calls the program, and expects its status, the lines that it writes, and how many datagrams it sends.
    pub(crate) fn expect(
        &self,
        rt: &impl Abort,
        alloc: Global,
        keeps: &mut MemKeeper,
        failing: Failing,
        wanted: (u8, &[&str], usize),
    ) -> Result<(), Fail> {
        let left = self.run(alloc, keeps, failing)?;
        let text = text_of(alloc, &[wanted.1])?;
        left.expect(rt, wanted.0, text.as_slice(), wanted.2);
        Ok(())
    }
}

/// Calls the program over these records. These datagrams arrive at node 1, and every reading is 0.
pub(crate) fn run_with(
    alloc: Global,
    keeps: &mut MemKeeper,
    words: &[&str],
    lines: &[&str],
    datagrams: Vec<Vec<u8>>,
) -> Result<Left, Fail> {
    let call = Call {
        words,
        lines,
        arrivals: &[],
        readings: &[0],
    };
    let mut left = call.unused(alloc, NONE)?;
    left.links = links_to_one(alloc, datagrams)?;
    left.code = call
        .status(alloc, 0, keeps, &mut left.sink, &mut left.links)?
        .code();
    Ok(left)
}

/// Expects the records of an actor. The reading is one more call of the keeper.
pub(crate) fn expect_kept(
    rt: &impl Abort,
    keeps: &mut MemKeeper,
    actor: u16,
    records: &[&[u8]],
) -> Result<(), Fail> {
    match keeps.records(actor) {
        Ok(kept) => expect_records(rt, actor, &kept, records),
        Err(_) => assert!(rt; false, "the keeper fails at {actor}"),
    }
    Ok(())
}

fn expect_records(rt: &impl Abort, actor: u16, kept: &[Vec<u8>], records: &[&[u8]]) {
    assert_eq!(rt; kept.len(), records.len(), "records of {actor}");
    for (have, want) in kept.iter().zip(records) {
        assert_eq!(rt; have.as_slice(), *want, "a record of {actor}");
    }
}
