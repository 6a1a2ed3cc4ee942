ghost use Rattle.std.specs.Prelude.{◌≡◌, ◌≤◌, ◌+◌, ◌-◌, ◌++◌, drop, length, take, IfOk};
ghost use Rattle.log_lines.specs.Queues.{before_line, fresh_queue, has_room, most_queue, notice, owes_notice};
ghost use Rattle.log_lines.specs.Queues.{queue_after};
ghost use Rattle.log_lines.specs.Queues;

use itoa::Buffer;
use std::alloc::{AllocError, Global};
use std::marker::Model;

/// How many bytes of lines wait for the log.
pub const MAX_QUEUE: usize = 65_536;

/// What became of a line that was pushed.
#[derive(Clone, Copy, Debug, PartialEq, Eq)]
pub enum Pushed {
    /// It waits as a whole.
    Whole,
    /// It found no room, and is counted.
    Dropped,
}

/// The lines that wait for the log, in a room that is made once.
#[derive(Drop)]
pub struct LineQueue {
    room: Vec<u8>,
    end: usize,
    /// How many lines were dropped since the log last said it.
    dropped: u64,
}

impl Model for LineQueue {
    ghost use Rattle.std.specs.Prelude.{◌≡◌, ◌≤◌, take, length};
    ghost use Rattle.log_lines.specs.Queues.{Queue, most_queue};

    ghost Value = { Queue };

    ghost view = { λ q. record { bytes = take q.end q.room.items; dropped = q.dropped } };

    ghost invariant = { λ q. (length q.room.items ≡ most_queue) × (q.end ≤ most_queue) };
}

impl LineQueue {
    /// No line waits.
    pub fn new(alloc: Global) -> Result<LineQueue, AllocError>
        ensures { IfOk result (λ q. q ≡ fresh_queue) }
    {
        Ok(LineQueue {
            room: vec![in alloc; 0u8; MAX_QUEUE]?,
            end: 0,
            dropped: 0,
        })
    }

    /// The bytes that wait. They begin with a line, or with what is left of one.
    pub fn front(&self) -> &[u8]
        ensures { result.now ≡ self.now.bytes }
    {
        &self.room[..self.end]
    }

    /// So many of the bytes that wait were written.
    pub fn taken(&mut self, count: usize)
        requires { count ≤ length self.old.bytes }
        ensures { self.new ≡ record self.old { bytes = drop count self.old.bytes } }
    {
        move_to_front(self.room.as_mut_slice(), count, self.end);
        self.end -= count;
    }

    /// Adds a line with its line feed, behind its time. A line that does not fit is counted; once the queue is empty
    /// again, the next line that fits comes behind a line `dropped COUNT`.
    pub fn push(&mut self, time: &[u8], line: &[u8]) -> Pushed
        ensures pushed { result ≡ Queues.pushed self.old time.now line.now }
        ensures queue { self.new ≡ queue_after self.old time.now line.now }
    {
        if !self.has_room(time, line) {
            self.dropped = self.dropped.saturating_add(1);
            return Pushed::Dropped;
        }
        if self.owes_notice() {
            self.put_notice(time);
        }
        self.put(time);
        self.put(line);
        Pushed::Whole
    }

    /// Whether lines were dropped, and the queue is empty again.
    fn owes_notice(&self) -> bool
        ensures { result ≡ owes_notice self.now }
    {
        self.end == 0 && self.dropped > 0
    }

    /// How many bytes come before a line.
    fn notice_length(&self, time: &[u8]) -> usize
        requires { length time.now ≤ most_queue }
        ensures length { result ≡ length (before_line self.now time.now) }
        ensures short { result ≤ length time.now + 49 }
    {
        if !self.owes_notice() {
            return 0;
        }
        let mut digits = Buffer::new();
        time.len() + NOTICE.len() + digits.format(self.dropped).len() + 1
    }

    /// Whether the line fits, with what comes before it.
    fn has_room(&self, time: &[u8], line: &[u8]) -> bool
        ensures { result ≡ has_room self.now time.now line.now }
    {
        let left = MAX_QUEUE - self.end;
        if time.len() > left || line.len() > left {
            return false;
        }
        self.notice_length(time) + time.len() + line.len() <= left
    }

    /// Adds the line that says how many lines were dropped. They are counted anew then.
    fn put_notice(&mut self, time: &[u8])
        requires { length self.old.bytes + length (notice time.now self.old.dropped) ≤ most_queue }
        ensures { self.new ≡ record {
          bytes = self.old.bytes ++ notice time.now self.old.dropped;
          dropped = 0;
        } }
    {
        let mut digits = Buffer::new();
        let count = digits.format(self.dropped).as_bytes();
        self.put(time);
        self.put(NOTICE);
        self.put(count);
        self.put(b"\n");
        self.dropped = 0;
    }

    /// Adds bytes at the end.
    fn put(&mut self, bytes: &[u8])
        requires { length self.old.bytes + length bytes.now ≤ most_queue }
        ensures { self.new ≡ record self.old { bytes = self.old.bytes ++ bytes.now } }
    {
        put_behind(self.room.as_mut_slice(), self.end, bytes);
        self.end += bytes.len();
    }
}

/// What a line of dropped lines says before their count.
const NOTICE: &[u8] = b"dropped ";

/// Moves the bytes between two places of the room to its front.
fn move_to_front(room: &mut [u8], next: usize, end: usize)
    requires rise { next ≤ end }
    requires within { end ≤ length room.old }
    ensures { take (end - next) room.new ≡ drop next (take end room.old) }
{
    room.copy_within(next..end, 0);
}

/// Puts the bytes behind this place of the room.
fn put_behind(room: &mut [u8], end: usize, bytes: &[u8])
    requires { end + length bytes.now ≤ length room.old }
    ensures { take (end + length bytes.now) room.new ≡ take end room.old ++ bytes.now }
{
    room[end..end + bytes.len()].copy_from_slice(bytes);
}
