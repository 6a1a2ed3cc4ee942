ghost use Rattle.std.specs.Prelude.{◌≤◌, IfSome};
ghost use Rattle.door_io.specs.Pages.{most_head};

use crate::limits::{MAX_HEAD_TICKS, MAX_PAGE_TICKS};
use crate::unread::Unread;
use crate::waits::later;
use crate::watch::Watch;
use crate::wire::{Moved, Wire};
use door_io::{MAX_HEAD, MAX_UNREAD};
use std::alloc::Global;

/// How a connection of the page stands.
#[derive(Clone, Copy, Debug, PartialEq, Eq)]
enum Stage {
    /// The head of its request comes.
    Asking,
    /// It takes its answer.
    Answered,
    /// It is to be closed.
    Over,
}

/// A connection of the page: the head that has come, the answer that waits for it, and when it is closed at the latest.
#[derive(Drop)]
pub struct Reader {
    wire: Wire,
    head: Vec<u8>,
    answer: Unread,
    stage: Stage,
    due: u64,
}

impl Reader {
    /// A connection that has come at this reading.
    pub fn new(alloc: Global, wire: Wire, now: u64) -> Reader {
        Reader {
            wire,
            head: Vec::new(alloc),
            answer: Unread::new(alloc, MAX_UNREAD),
            stage: Stage::Asking,
            due: later(now, MAX_HEAD_TICKS),
        }
    }

    /// Does what is due at this reading. Says how many bytes the head has, if it has grown: they stand at the front of
    /// the buffer then.
    pub fn next(&mut self, now: u64, into: &mut [u8; MAX_HEAD]) -> Option<usize>
        ensures { IfSome result (λ n. n ≤ most_head) }
    {
        if self.due <= now {
            self.stage = Stage::Over;
        }
        match self.stage {
            Stage::Asking => {
                if self.read() {
                    return copy_head(&self.head, into);
                }
            }
            Stage::Answered => self.flush(),
            Stage::Over => {}
        }
        None
    }

    /// Answers it at this reading: the text is written as it is taken, and then the connection is closed.
    pub fn answer(&mut self, text: &[u8], now: u64) {
        if self.stage != Stage::Asking {
            return;
        }
        self.due = later(now, MAX_PAGE_TICKS);
        self.stage = Stage::Answered;
        if self.answer.push(text) {
            self.flush();
        } else {
            self.stage = Stage::Over;
        }
    }

    /// Whether it is to be closed.
    pub fn is_over(&self) -> bool {
        self.stage == Stage::Over
    }

    /// What is awaited of it.
    pub fn watch(&self) -> Watch {
        Watch {
            descriptor: self.wire.input(),
            takes: self.stage == Stage::Asking && self.head.len() < MAX_HEAD,
            gives: self.stage == Stage::Answered,
            due: if self.is_over() { 0 } else { self.due },
        }
    }

    /// Takes what has come of the head, and says whether it has grown.
    fn read(&mut self) -> bool {
        let mut piece = [0; MAX_HEAD];
        let room = MAX_HEAD.saturating_sub(self.head.len());
        if room == 0 {
            return false;
        }
        match self.wire.read(&mut piece[..room]) {
            Moved::Bytes(count) if self.head.extend_from_slice(&piece[..count]).is_ok() => true,
            Moved::Nothing => false,
            _ => {
                self.stage = Stage::Over;
                false
            }
        }
    }

    /// Writes what waits, as far as it is taken. A connection for which nothing waits any more is to be closed.
    fn flush(&mut self) {
        match self.wire.write(self.answer.front()) {
            Moved::Bytes(count) => self.answer.taken(count),
            Moved::Nothing => {}
            Moved::Ended => self.stage = Stage::Over,
        }
        if self.answer.is_empty() {
            self.stage = Stage::Over;
        }
    }
}

/// Copies the head to the front of the buffer, and says how many bytes it has; None where it is longer than the buffer.
fn copy_head(head: &[u8], into: &mut [u8; MAX_HEAD]) -> Option<usize>
    ensures { IfSome result (λ n. n ≤ most_head) }
{
    if head.len() > into.len() {
        return None;
    }
    into[..head.len()].copy_from_slice(head);
    Some(head.len())
}
