ghost use Rattle.std.specs.Prelude.{◌≤◌, IfSome};
ghost use Rattle.door_io.specs.Doors.{most_asked};
ghost use Rattle.serve_edge.specs.Comes.{FitsLine};

use crate::unread::Unread;
use crate::watch::Watch;
use crate::wire::{Moved, Wire};
use door_io::MAX_ASKED;
use std::alloc::{AllocError, Global};
use stream_cut::{Cut, StreamCut};

/// How many bytes are taken at once: a line of the most bytes, with its line feed.
const PIECE: usize = MAX_ASKED + 1;

/// How a client stands.
#[derive(Clone, Copy, Debug, PartialEq, Eq)]
enum Stage {
    /// It may say more.
    Open,
    /// It says nothing more. What waits for it is still written.
    Ended,
    /// It is dropped, or the connection is broken.
    Over,
}

/// What comes of a client.
#[derive(Clone, Copy, Debug, PartialEq, Eq)]
pub enum Came {
    /// A line of so many bytes.
    Line(usize),
    /// A line that is too long.
    TooLong,
    /// Its end.
    Gone,
    /// Nothing.
    Nothing,
}

/// A client of the door: its connection, the begin of a line that has come, and the text that waits for it.
#[derive(Drop)]
pub struct Client {
    wire: Wire,
    cut: StreamCut,
    unread: Unread,
    stage: Stage,
    /// Whether there may be a further line in what has come.
    has_more: bool,
}

impl Client {
    /// It has said nothing, and nothing waits for it. So many bytes may.
    pub fn new(alloc: Global, wire: Wire, most: usize) -> Result<Client, AllocError> {
        Ok(Client {
            wire,
            cut: StreamCut::new(alloc, MAX_ASKED)?,
            unread: Unread::new(alloc, most),
            stage: Stage::Open,
            has_more: false,
        })
    }

    /// Takes what comes next of it, a line into the front of the buffer.
    pub fn next(&mut self, into: &mut [u8; MAX_ASKED]) -> Came
        ensures { FitsLine result }
    {
        if self.stage == Stage::Over {
            return Came::Gone;
        }
        let mut came = self.next_line(into);
        if came == Came::Nothing && self.stage == Stage::Open {
            self.read();
            came = self.next_line(into);
        }
        if came == Came::Nothing && self.is_gone() {
            return Came::Gone;
        }
        came
    }

    /// Takes in what it has said by now, as much as there is room for.
    pub fn gather(&mut self) {
        if self.stage == Stage::Open {
            self.read();
        }
    }

    /// Takes the next of the lines that have come, into the front of the buffer; its end where nothing more comes.
    pub fn next_gathered(&mut self, into: &mut [u8; MAX_ASKED]) -> Came
        ensures { FitsLine result }
    {
        if self.stage == Stage::Over {
            return Came::Gone;
        }
        let came = self.next_line(into);
        if came == Came::Nothing && self.stage == Stage::Ended {
            return Came::Gone;
        }
        came
    }

    /// Drops it: nothing is said to it any more, and its connection ends at the next question what comes of it.
    pub fn close(&mut self) {
        self.stage = Stage::Over;
    }

    /// Says the text to it: the text waits, until it is written as far as the client takes it. A client for which too
    /// much waits is dropped. Says whether it is.
    pub fn hear(&mut self, text: &[u8]) -> bool {
        if self.stage == Stage::Over {
            return false;
        }
        if self.unread.push(text) {
            return false;
        }
        self.stage = Stage::Over;
        true
    }

    /// What is awaited of it.
    pub fn watch(&self) -> Watch {
        if self.has_more || self.is_gone() {
            return Watch::until(0);
        }
        Watch {
            descriptor: self.wire.input(),
            takes: self.stage == Stage::Open,
            gives: !self.unread.is_empty(),
            due: u64::MAX,
        }
    }

    /// The descriptor to which its answers go.
    pub fn output(&self) -> i32 {
        self.wire.output()
    }

    /// How many bytes wait for it.
    pub fn waiting(&self) -> usize {
        self.unread.front().len()
    }

    /// Whether nothing more is to be said by it or to it.
    fn is_gone(&self) -> bool {
        match self.stage {
            Stage::Open => false,
            Stage::Ended => self.unread.is_empty(),
            Stage::Over => true,
        }
    }

    /// Takes the next line of what has come.
    fn next_line(&mut self, into: &mut [u8; MAX_ASKED]) -> Came
        ensures { FitsLine result }
    {
        let cut = self.cut.next();
        self.has_more = cut != Cut::More;
        match cut {
            Cut::More => Came::Nothing,
            Cut::TooLong => Came::TooLong,
            Cut::Line => match copy_line(self.cut.line(), into) {
                Some(count) => Came::Line(count),
                None => Came::TooLong,
            },
        }
    }

    /// Takes what has come, as much as there is room for.
    fn read(&mut self) {
        let mut piece = [0; PIECE];
        let room = self.cut.room().min(piece.len());
        if room == 0 {
            return;
        }
        match self.wire.read(&mut piece[..room]) {
            Moved::Bytes(count) => {
                self.cut.take(&piece[..count]);
                self.has_more = true;
            }
            Moved::Nothing => {}
            Moved::Ended => self.stage = Stage::Ended,
        }
    }

    /// Writes what waits, as far as the client takes it.
    pub fn flush(&mut self) {
        if self.unread.is_empty() {
            return;
        }
        match self.wire.write(self.unread.front()) {
            Moved::Bytes(count) => self.unread.taken(count),
            Moved::Nothing => {}
            Moved::Ended => self.stage = Stage::Over,
        }
    }
}

/// Copies a line to the front of the buffer, and says how many bytes it has; None where it is longer than the buffer.
fn copy_line(line: &[u8], into: &mut [u8; MAX_ASKED]) -> Option<usize>
    ensures { IfSome result (λ n. n ≤ most_asked) }
{
    if line.len() > into.len() {
        return None;
    }
    into[..line.len()].copy_from_slice(line);
    Some(line.len())
}
