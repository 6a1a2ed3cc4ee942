use crate::board::PollBoard;
use crate::limits::{MAX_PAUSE_TICKS, MAX_WRITES};
use crate::ready::may_write;
use crate::seats::OUTPUT;
use crate::standard::write_front;
use crate::waits::later;
use crate::watch::Watch;
use log_lines::{LineQueue, Pushed};
use std::alloc::{AllocError, Global};
use std::cell::{Cell, RefCell};
use std::io::ErrorKind;

/// What the log of a served process is written to, and the lines that wait for it. A write is made only when the system
/// says that the output is ready, and has at most `MAX_PIECE` bytes, which a pipe, a terminal and a file take at once.
#[derive(Drop)]
pub struct LogOutput<'a> {
    board: &'a PollBoard,
    descriptor: i32,
    queue: RefCell<LineQueue>,
    /// Whether nobody reads the output any more.
    closed: Cell<bool>,
    /// Up to which reading an output that took nothing is left alone.
    resume: Cell<u64>,
}

/// Whether a write that failed so says that nobody reads the output any more. The disk of a file that is full may have
/// room again.
fn is_closed(kind: ErrorKind) -> bool {
    matches!(kind, ErrorKind::BrokenPipe | ErrorKind::ConnectionReset)
}

impl<'a> LogOutput<'a> {
    /// No line waits.
    pub fn new(alloc: Global, board: &'a PollBoard, descriptor: i32) -> Result<Self, AllocError> {
        Ok(LogOutput {
            board,
            descriptor,
            queue: RefCell::new(LineQueue::new(alloc)?),
            closed: Cell::new(false),
            resume: Cell::new(0),
        })
    }
}

impl LogOutput<'_> {
    /// Adds a line behind its time. It waits until the process rests.
    pub fn push(&self, time: &[u8], line: &[u8]) -> Pushed {
        if self.closed.get() {
            return Pushed::Dropped;
        }
        let pushed = match self.queue.try_borrow_mut() {
            Ok(mut queue) => queue.push(time, line),
            Err(_) => Pushed::Dropped,
        };
        self.watch();
        pushed
    }

    /// Writes some of what waits. The output is ready.
    fn write_some(&self) {
        if let Ok(mut queue) = self.queue.try_borrow_mut() {
            match write_front(self.descriptor, queue.front()) {
                Ok(count) if count > 0 => queue.taken(count),
                Err(error) if is_closed(error.kind()) => self.closed.set(true),
                _ => self.resume.set(later(self.board.now(), MAX_PAUSE_TICKS)),
            }
        }
        self.watch();
    }

    /// Writes what waits, as far as the output takes it at once.
    pub fn write_ready(&self) {
        for _ in 0..MAX_WRITES {
            if self.waiting() == 0 || self.is_paused() || !may_write(self.descriptor) {
                return;
            }
            self.write_some();
        }
    }

    /// How many bytes wait. For an output that is closed nothing does.
    fn waiting(&self) -> usize {
        match self.queue.try_borrow() {
            Ok(queue) if !self.closed.get() => queue.front().len(),
            _ => 0,
        }
    }

    /// Whether the output is left alone, since it took nothing although it was ready.
    fn is_paused(&self) -> bool {
        self.board.now() < self.resume.get()
    }

    /// Awaits that the output is ready, while something waits for it.
    pub fn watch(&self) {
        let mut watch = Watch::none();
        if self.waiting() > 0 {
            if self.is_paused() {
                watch.due = self.resume.get();
            } else {
                watch.descriptor = self.descriptor;
                watch.gives = true;
            }
        }
        self.board.watch(OUTPUT, watch);
    }
}
