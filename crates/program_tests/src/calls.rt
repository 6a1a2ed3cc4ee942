// Calls of the program over devices in memory, and what they write.

use edge_io::{MemClock, MemKeeper, MemLinks, MemSink, MemSource, Sink, Source};
use fabric_top::{Status, fabric_main};
use std::alloc::Global;
use std::process::Abort;
use std::test::Fail;

pub(crate) fn words_of(alloc: Global, words: &[&str]) -> Result<Vec<String>, Fail> {
    let mut all = Vec::new(alloc);
    for word in words {
        all.push(String::from_str(alloc, word)?)?;
    }
    Ok(all)
}

/// The lines of these lists, each with its line feed.
pub(crate) fn text_of(alloc: Global, lists: &[&[&str]]) -> Result<Vec<u8>, Fail> {
    let mut text = Vec::new(alloc);
    for lines in lists {
        for line in *lines {
            text.extend_from_slice(line.as_bytes())?;
            text.push(b'\n')?;
        }
    }
    Ok(text)
}

/// Calls the program with what is read and written alone: it has no links, no records and no readings.
fn status_of<S: Source, K: Sink>(
    alloc: Global,
    words: &[String],
    source: &mut S,
    sink: &mut K,
) -> Status {
    let mut links = MemLinks::new(alloc, Vec::new(alloc), Vec::new(alloc));
    let mut keeps = MemKeeper::new(alloc, Vec::new(alloc), Vec::new(alloc));
    let mut clock = MemClock::new(Vec::new(alloc));
    fabric_main(
        alloc, words, source, sink, &mut links, &mut keeps, &mut clock,
    )
}

/// The exit status of such a call.
pub(crate) fn called<S: Source, K: Sink>(
    alloc: Global,
    words: &[&str],
    source: &mut S,
    sink: &mut K,
) -> Result<u8, Fail> {
    let words = words_of(alloc, words)?;
    Ok(status_of(alloc, &words, source, sink).code())
}

/// The exit status of a call, and where it wrote to.
#[derive(Drop)]
pub(crate) struct Outcome {
    code: u8,
    sink: MemSink,
}

/// Calls the program over this text, where the reads and the writes of these numbers fail.
pub(crate) fn written(
    alloc: Global,
    words: &[&str],
    text: Vec<u8>,
    reads: Vec<u64>,
    writes: Vec<u64>,
) -> Result<Outcome, Fail> {
    let mut source = MemSource::new(text, reads);
    let mut left = Outcome {
        code: 0,
        sink: MemSink::new(alloc, writes),
    };
    left.code = called(alloc, words, &mut source, &mut left.sink)?;
    Ok(left)
}

impl Outcome {
    /// Expects the status, and all that is written.
    pub(crate) fn expect(&self, rt: &impl Abort, code: u8, text: &[u8]) {
        assert_eq!(rt; self.code, code);
        assert_eq!(rt; self.sink.held(), text);
    }

    /// Expects a good end, and what is written last.
    pub(crate) fn expect_end(&self, rt: &impl Abort, text: &[u8]) {
        assert_eq!(rt; self.code, 0);
        assert!(rt; self.sink.held().ends_with(text));
    }
}
