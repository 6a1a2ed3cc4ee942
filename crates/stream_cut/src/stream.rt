ghost use Rattle.std.specs.Prelude.{◌≡◌, ◌≤◌, ◌<◌, ◌+◌, ◌-◌, ◌==◌, ◌++◌, [], true, false, Some, None, Bool, not, IfOk, length, take, drop, min};
ghost use Rattle.std.specs.Prelude.{position, List, ℕ};
ghost use Rattle.stream_cut.specs.Cuts.{Came, Gives, Piece, cuts_with, piece_of};
ghost use Rattle.stream_cut.specs.declared.cut.Cut.TheVariants.{More};

use crate::cut::Cut;
use crate::find::first_feed;
use std::alloc::{AllocError, Global};
use std::marker::Model;

/// How many bytes a line of a stream may have, whatever its reader allows.
pub const MAX_CUT: usize = 65_536;

/// Cuts the lines of a stream: bytes are taken into a room that is made once, and lines are cut from it.
#[derive(Drop)]
pub struct StreamCut {
    room: Vec<u8>,
    /// The line that was cut last.
    from: usize,
    to: usize,
    /// What was taken and not yet cut.
    next: usize,
    end: usize,
    /// Whether the rest of a line that is too long is skipped.
    skips: bool,
}

impl Model for StreamCut {
    ghost use Rattle.std.specs.Prelude.{◌≡◌, ◌≤◌, ◌<◌, ◌-◌, take, drop, length};
    ghost use Rattle.stream_cut.specs.Cuts.{Stream};

    ghost Value = { Stream };

    ghost view = { λ s. record {
      waiting = drop s.next (take s.end s.room.items);
      line = drop s.from (take s.to s.room.items);
      skips = s.skips;
      most = length s.room.items - 1;
    } };

    ghost invariant = { λ s. (0 < length s.room.items) × (s.from ≤ s.to) × (s.to ≤ s.end) × (s.next ≤ s.end) ×
        (s.end ≤ length s.room.items) };
}

impl StreamCut {
    /// Nothing has come. A line may have this many bytes, without its line feed.
    pub fn new(alloc: Global, most: usize) -> Result<StreamCut, AllocError>
        requires { most ≤ MAX_CUT }
        ensures { IfOk result (λ s. s ≡ record { waiting = []; line = []; skips = false; most = most }) }
    {
        Ok(StreamCut {
            room: vec![in alloc; 0u8; most + 1]?,
            from: 0,
            to: 0,
            next: 0,
            end: 0,
            skips: false,
        })
    }

    /// The line that was cut last, without its line feed. After `take` it is empty.
    pub fn line(&self) -> &[u8]
        ensures { result.now ≡ self.now.line }
    {
        &self.room[self.from..self.to]
    }

    /// For how many more bytes there is room, once the last line is no more needed.
    pub fn room(&self) -> usize
        ensures { result ≡ self.now.most + 1 - length self.now.waiting }
    {
        self.room.len() - (self.end - self.next)
    }

    /// Takes bytes of the stream, as many as there is room for, and says how many. After `More` there is room for one
    /// byte at least.
    #[tactic(auto, using(crate::proofs::Coming::came_more))]
    pub fn take(&mut self, piece: &[u8]) -> usize
        ensures count { result ≡ min (length piece.now) (self.old.most + 1 - length self.old.waiting) }
        ensures came { (bytes : List ℕ) (out : List Piece) → Came bytes out self.old →
            Came (bytes ++ take result piece.now) out self.new }
        ensures taken { self.new ≡ record self.old { waiting = self.old.waiting ++ take result piece.now; line = [] } }
    {
        move_to_front(self.room.as_mut_slice(), self.next, self.end);
        self.end -= self.next;
        self.next = 0;
        self.from = 0;
        self.to = 0;
        let count = put_behind(self.room.as_mut_slice(), self.end, piece);
        self.end += count;
        count
    }

    /// Cuts the next line: it is `line` then.
    #[tactic(auto, using(crate::proofs::Coming::came_out))]
    pub fn next(&mut self) -> Cut
        ensures given { Gives result self.old self.new }
        ensures came { (bytes : List ℕ) (out : List Piece) → Came bytes out self.old →
            Came bytes (out ++ piece_of result self.new.line) self.new }
        ensures most { self.new.most ≡ self.old.most }
        ensures more { result ≡ More → length self.new.waiting ≤ self.new.most }
    {
        self.skip_rest();
        match first_feed(self.waiting()) {
            Some(feed) => {
                self.cut_to(feed);
                Cut::Line
            }
            None => self.cut_long(),
        }
    }

    /// What was taken and not yet cut.
    fn waiting(&self) -> &[u8]
        ensures { result.now ≡ self.now.waiting }
    {
        &self.room[self.next..self.end]
    }

    /// Drops what is left of a line that is skipped, as far as it has come.
    fn skip_rest(&mut self)
        ensures same { (more : List ℕ) → cuts_with self.old more ≡ cuts_with self.new more }
        ensures most { self.new.most ≡ self.old.most }
        ensures nothing { self.new.skips ≡ true → self.new.waiting ≡ [] }
    {
        if self.skips {
            match first_feed(self.waiting()) {
                Some(feed) => self.skip_to(feed),
                None => self.drop_all(),
            }
        }
    }

    /// Drops the rest of the line, up to its line feed.
    fn skip_to(&mut self, feed: usize)
        requires { position (λ b. b == 10) self.old.waiting ≡ Some feed }
        ensures { self.new ≡ record self.old { waiting = drop (feed + 1) self.old.waiting; skips = false } }
    {
        self.next = self.next + feed + 1;
        self.skips = false;
    }

    /// Drops all that waits, and what comes up to the next line feed.
    fn drop_all(&mut self)
        ensures { self.new ≡ record self.old { waiting = []; skips = true } }
    {
        self.next = self.end;
        self.skips = true;
    }

    /// Cuts the line up to its line feed.
    fn cut_to(&mut self, feed: usize)
        requires { position (λ b. b == 10) self.old.waiting ≡ Some feed }
        ensures fits { length self.old.waiting ≤ self.old.most + 1 }
        ensures cut { self.new ≡
            record self.old { waiting = drop (feed + 1) self.old.waiting; line = take feed self.old.waiting } }
    {
        self.from = self.next;
        self.to = self.next + feed;
        self.next = self.to + 1;
    }

    /// No line feed waits: says whether the line is too long already.
    fn cut_long(&mut self) -> Cut
        requires none { position (λ b. b == 10) self.old.waiting ≡ None }
        requires nothing { self.old.skips ≡ true → self.old.waiting ≡ [] }
        ensures given { Gives result self.old self.new }
        ensures most { self.new.most ≡ self.old.most }
        ensures more { result ≡ More → length self.new.waiting ≤ self.new.most }
    {
        if self.end - self.next < self.room.len() {
            return Cut::More;
        }
        self.drop_all();
        Cut::TooLong
    }
}

/// Moves the bytes between two places of the room to its front.
fn move_to_front(room: &mut [u8], next: usize, end: usize)
    requires rise { next ≤ end }
    requires within { end ≤ length room.old }
    ensures { take (end - next) room.new ≡ drop next (take end room.old) }
{
    room.copy_within(next..end, 0);
}

/// Puts a front of the piece behind this place of the room, as much as there is room for, and says how much.
fn put_behind(room: &mut [u8], end: usize, piece: &[u8]) -> usize
    requires { end ≤ length room.old }
    ensures count { result ≡ min (length piece.now) (length room.old - end) }
    ensures put { take (end + result) room.new ≡ take end room.old ++ take result piece.now }
{
    let count = piece.len().min(room.len() - end);
    room[end..end + count].copy_from_slice(&piece[..count]);
    count
}
