ghost use Rattle.std.specs.Prelude.{◌≡◌, ◌≤◌, ◌<◌, ◌+◌, ◌==◌, ◌++◌, ℕ, List, [], Some, Ok, IfOk, length, position, true};
ghost use Rattle.edge_io.specs.Edge.{HasCause};
ghost use Rattle.source_lines.specs.Feeds.{HasNoFeed};
ghost use Rattle.source_lines.specs.Reading.{IsLineOf, LeavesUnread, TakesOf, may_wait};
ghost use Rattle.source_lines.specs.Stops.{StopsAt, TakesTo, TakesLast};

use crate::limits::MAX_FIRST_LINE;
use crate::next_line::NextLine;
use crate::piece::{PieceEnd, first_feed, move_to_front, read_on};
use edge_io::{Failed, Source};
use std::alloc::{AllocError, Global};
use std::marker::Model;

/// How many bytes of a source stand in the room at most: the longest line, and a piece.
const ROOM: usize = 81_920;

/// How many bytes stand in the room at first. The room is filled when it is made, which a short source would pay for.
const FIRST_ROOM: usize = 8_192;

/// Reads a source line by line: pieces are read into a room, and lines are cut from it. The memory of the room is taken
/// once. The room gets longer when a piece has filled it, or when a line is longer.
#[derive(Drop)]
pub struct LineReader {
    room: Vec<u8>,
    /// The line that was taken last. Its line feed, if it has one, stands before `next`.
    from: usize,
    to: usize,
    /// What was read and not yet taken.
    next: usize,
    end: usize,
}

impl Model for LineReader {
    ghost use Rattle.std.specs.Prelude.{◌≡◌, ◌≤◌, ◌<◌, ◌+◌, ◌-◌, ◌==◌, take, drop, length, vec_capacity};
    ghost use Rattle.source_lines.specs.Reading.{Reading};

    ghost Value = { Reading };

    ghost view = { λ r. record {
      waiting = drop r.next (take r.end r.room.items);
      line = drop r.from (take r.to r.room.items);
      whole = drop r.from (take r.next r.room.items);
      long = length r.room.items;
      filled = r.end == 81920;
    } };

    ghost invariant = { λ r. (0 < length r.room.items) × (r.from ≤ r.to) × (r.to ≤ r.next) × (r.next ≤ r.to + 1) ×
        (r.next ≤ r.end) × (r.end ≤ length r.room.items) × (81920 ≤ vec_capacity r.room) };
}

impl LineReader {
    /// Nothing is read yet.
    pub fn new(alloc: Global) -> Result<LineReader, AllocError>
        ensures { IfOk result (λ r. (r.waiting ≡ []) × (r.line ≡ []) × (r.whole ≡ [])) }
    {
        let mut room = Vec::with_capacity(alloc, ROOM)?;
        room.resize(FIRST_ROOM, 0)?;
        Ok(LineReader {
            room,
            from: 0,
            to: 0,
            next: 0,
            end: 0,
        })
    }

    /// The line that was taken last, without its line feed. Where the last `next` took none (`End`, `TooLong` or
    /// `Failed`) it is no line, and may be empty.
    pub fn line(&self) -> &[u8]
        ensures { result.now ≡ self.now.line }
    {
        &self.room[self.from..self.to]
    }

    /// The same line with its line feed. The last line of a source may have none.
    pub fn whole_line(&self) -> &[u8]
        ensures whole { result.now ≡ self.now.whole }
        ensures longer { length result.now ≤ length self.now.line + 1 }
    {
        &self.room[self.from..self.next]
    }

    /// Whether the next line may wait for the source: no whole line was read, and the last piece was shorter than was
    /// asked for, or filled a room that was still short, so the source may have no more for now. A file gives whole pieces
    /// up to its last one.
    pub fn may_wait(&self) -> bool
        ensures { result ≡ may_wait self.now }
    {
        self.end != ROOM && first_feed(self.waiting()).is_none()
    }

    /// What was read and not yet taken.
    fn waiting(&self) -> &[u8]
        ensures { result.now ≡ self.now.waiting }
    {
        &self.room[self.next..self.end]
    }

    /// Takes the next line: it is `line` then, unless it has more bytes than `most`. Pieces of the source are read as
    /// they are needed, and none where a whole line was read already. `Failed` comes only where the source's count of
    /// faults rose; what was read is not lost.
    pub fn next<S: Source>(&mut self, source: &mut S, most: usize) -> Result<NextLine, Failed>
        requires { most ≤ MAX_FIRST_LINE }
        ensures taken { TakesOf result most self.old (S.left source.old) self.new (S.left source.new) }
        ensures unread { LeavesUnread self.old (source.new ≡ source.old) }
        ensures line { IsLineOf result most self.new.line }
        ensures cause { HasCause (S.faults source.old) (S.faults source.new) result }
    {
        match first_feed(self.waiting()) {
            Some(i) => Ok(self.take_to(i, most)),
            None => self.read_next(source, most),
        }
    }

    /// Takes the line up to the first line feed.
    fn take_to(&mut self, feed: usize, most: usize) -> NextLine
        requires { position (λ b. b == 10) self.old.waiting ≡ Some feed }
        ensures { TakesTo result feed most self.old self.new }
    {
        if feed > most {
            return NextLine::TooLong;
        }
        self.from = self.next;
        self.to = self.next + feed;
        self.next = self.to + 1;
        NextLine::Line
    }

    /// Takes all that waits as the last line.
    fn take_last(&mut self) -> NextLine
        ensures { TakesLast result self.old self.new }
    {
        if self.next == self.end {
            return NextLine::End;
        }
        self.from = self.next;
        self.to = self.end;
        self.next = self.end;
        NextLine::Line
    }

    /// Takes the next line where no whole line waits.
    fn read_next<S: Source>(&mut self, source: &mut S, most: usize) -> Result<NextLine, Failed>
        requires most { most ≤ MAX_FIRST_LINE }
        requires no_feed { HasNoFeed self.old.waiting }
        ensures taken { TakesOf result most self.old (S.left source.old) self.new (S.left source.new) }
        ensures line { IsLineOf result most self.new.line }
        ensures cause { HasCause (S.faults source.old) (S.faults source.new) result }
    {
        match self.read_pieces(source, most)? {
            PieceEnd::Feed(i) => Ok(self.take_to(i, most)),
            PieceEnd::Ended => Ok(self.take_last()),
            PieceEnd::Full => Ok(NextLine::TooLong),
        }
    }

    /// Makes the room as long as it gets, where that is wanted. Its memory is there.
    fn widen(&mut self, is_wanted: bool)
        ensures rest { self.new ≡ record self.old { long = self.new.long } }
        ensures long { is_wanted ≡ true → ROOM ≤ self.new.long }
    {
        if is_wanted && self.room.len() < ROOM {
            match self.room.resize(ROOM, 0) {
                Ok(()) => {}
                Err(_) => unreachable!(),
            }
        }
    }

    /// Reads pieces behind what waits, which has no line feed. The room is made longer only where more comes than has
    /// place in it.
    fn read_pieces<S: Source>(&mut self, source: &mut S, most: usize) -> Result<PieceEnd, Failed>
        requires most { most ≤ MAX_FIRST_LINE }
        requires no_feed { HasNoFeed self.old.waiting }
        ensures bytes { (bytes : List ℕ) → S.left source.old ≡ Some bytes → (rest : List ℕ) ×
            (S.left source.new ≡ Some rest) × (self.new.waiting ++ rest ≡ self.old.waiting ++ bytes) ×
            (result ≡ Ok PieceEnd.Ended → rest ≡ []) }
        ensures stop { StopsAt result most self.new.waiting }
        ensures cause { HasCause (S.faults source.old) (S.faults source.new) result }
    {
        let is_filled = self.end == self.room.len();
        self.widen(is_filled);
        let most_here = most.min(self.room.len() - 1);
        match self.read_up_to(source, most_here)? {
            PieceEnd::Feed(i) => Ok(PieceEnd::Feed(i)),
            PieceEnd::Ended => Ok(PieceEnd::Ended),
            PieceEnd::Full => {
                if most_here == most {
                    return Ok(PieceEnd::Full);
                }
                self.widen(true);
                self.read_up_to(source, most)
            }
        }
    }

    /// Reads pieces as `read_pieces` does, into the room as it is, which is longer than so many bytes.
    fn read_up_to<S: Source>(&mut self, source: &mut S, most: usize) -> Result<PieceEnd, Failed>
        requires most { most < self.old.long }
        requires no_feed { HasNoFeed self.old.waiting }
        ensures bytes { (bytes : List ℕ) → S.left source.old ≡ Some bytes → (rest : List ℕ) ×
            (S.left source.new ≡ Some rest) × (self.new.waiting ++ rest ≡ self.old.waiting ++ bytes) ×
            (result ≡ Ok PieceEnd.Ended → rest ≡ []) }
        ensures stop { StopsAt result most self.new.waiting }
        ensures cause { HasCause (S.faults source.old) (S.faults source.new) result }
    {
        move_to_front(self.room.as_mut_slice(), self.next, self.end);
        self.end -= self.next;
        self.next = 0;
        self.from = 0;
        self.to = 0;
        read_on(source, self.room.as_mut_slice(), &mut self.end, most)
    }
}
