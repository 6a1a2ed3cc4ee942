ghost use Rattle.std.specs.Prelude.{◌≡◌};
ghost use Rattle.door_io.specs.Doors.{FitsBuffer};
ghost use Rattle.serve_edge.specs.Comes.{FitsLine};
ghost use Rattle.serve_edge.specs.Unreads;

use crate::board::PollBoard;
use crate::client::{Came, Client};
use crate::door_clients::said_by;
use crate::limits::MAX_WRITES;
use crate::seats::{ANSWERS, PARENT};
use crate::waits::later;
use crate::watch::Watch;
use crate::wire::Wire;
use door_io::{MAX_ASKED, MAX_UNREAD, Said};
use std::alloc::{AllocError, Global};
use std::cell::{Cell, RefCell};

/// The number of the parent among the clients. No client of the socket has it.
pub const PARENT_CLIENT: u32 = 0;

/// The line that stands for the end of a parent, and for a sync that has failed.
pub const END: &[u8; 6] = b"@0 end";

/// What the parent of a process writes and reads: its lines as far as they were gathered, and the text that waits for
/// it. The door and the devices share it: the door gives the lines and answers them, and the devices write reports. A
/// parent that says nothing more, that reads nothing more, or that was silent for too long, comes to its end: the door
/// gives the line `@0 end` once. It has no limit of bytes that wait for it, but one of time.
#[derive(Drop)]
pub struct ParentStream<'a> {
    board: &'a PollBoard,
    parent: RefCell<Client>,
    /// From which reading on `MAX_UNREAD` bytes or more have waited for the parent.
    full: Cell<Option<u64>>,
    /// For how many ticks so many may.
    hold: u64,
    /// Whether the parent was silent for too long.
    silent: Cell<bool>,
    /// Whether its end was said.
    ended: Cell<bool>,
}

/// From which reading on `MAX_UNREAD` bytes or more have waited without a break, where so many wait at this one.
fn full_since(full: Option<u64>, waiting: usize, now: u64) -> Option<u64>
    ensures { result ≡ Unreads.full_since full waiting now }
{
    if waiting < MAX_UNREAD {
        return None;
    }
    full.or(Some(now))
}

impl<'a> ParentStream<'a> {
    /// The parent writes to one descriptor and reads the other, and may leave too many bytes unread for so many ticks.
    pub fn new(
        alloc: Global,
        board: &'a PollBoard,
        streams: (i32, i32),
        hold: u64,
    ) -> Result<Self, AllocError> {
        let (input, output) = streams;
        let parent = Client::new(alloc, Wire::Streams { input, output }, usize::MAX)?;
        board.watch(PARENT, parent.watch());
        Ok(ParentStream {
            board,
            parent: RefCell::new(parent),
            full: Cell::new(None),
            hold,
            silent: Cell::new(false),
            ended: Cell::new(false),
        })
    }
}

impl ParentStream<'_> {
    /// For how many ticks too many bytes may wait for the parent, and for how many it may owe a `done`.
    pub fn hold(&self) -> u64 {
        self.hold
    }

    /// Takes in what the parent has sent by now, as much as there is room for. A parent for which too many bytes have
    /// waited for too long is silent.
    pub fn gather(&self) {
        if let Ok(mut parent) = self.parent.try_borrow_mut() {
            parent.gather();
        }
        self.note();
        if self.due() <= self.board.now() {
            self.silent.set(true);
        }
    }

    /// Says the text to the parent: it waits for the next rest. Once the end of the parent was said, nothing is said to
    /// it any more: it has not asked the line that stands for its end.
    pub fn say(&self, text: &[u8]) {
        if self.ended.get() {
            return;
        }
        if let Ok(mut parent) = self.parent.try_borrow_mut() {
            parent.hear(text);
        }
        self.note();
    }

    /// The parent was silent for too long.
    pub fn silence(&self) {
        self.silent.set(true);
    }

    /// Whether the parent was silent for too long.
    pub fn is_silent(&self) -> bool {
        self.silent.get()
    }

    /// Drops the parent: nothing is said to it any more.
    pub fn close(&self) {
        if let Ok(mut parent) = self.parent.try_borrow_mut() {
            parent.close();
        }
        self.note();
    }

    /// Writes what was said to the parent, as far as it takes it at once.
    pub fn write_out(&self) {
        if let Ok(mut parent) = self.parent.try_borrow_mut() {
            for _ in 0..MAX_WRITES {
                parent.flush();
            }
        }
        self.note();
    }

    /// Takes the next of the lines that were gathered, or the end of the parent.
    pub fn next(&self, into: &mut [u8; MAX_ASKED]) -> Said
        ensures { FitsBuffer result }
    {
        if self.ended.get() {
            return Said::Quiet;
        }
        let came = self.came(into);
        self.note();
        if came == Came::Gone {
            return self.end(into);
        }
        said_by(PARENT_CLIENT, came)
    }

    fn came(&self, into: &mut [u8; MAX_ASKED]) -> Came
        ensures { FitsLine result }
    {
        if self.silent.get() {
            return Came::Gone;
        }
        match self.parent.try_borrow_mut() {
            Ok(mut parent) => parent.next_gathered(into),
            Err(_) => Came::Nothing,
        }
    }

    /// The line that stands for the end of the parent.
    fn end(&self, into: &mut [u8; MAX_ASKED]) -> Said
        ensures { FitsBuffer result }
    {
        self.ended.set(true);
        into[..END.len()].copy_from_slice(END);
        Said::Line(PARENT_CLIENT, END.len())
    }

    /// At which reading too many bytes will have waited for too long.
    fn due(&self) -> u64 {
        match self.full.get() {
            Some(since) => later(since, self.hold),
            None => u64::MAX,
        }
    }

    /// Says what is awaited of the parent, and how long too many bytes have waited for it.
    fn note(&self) {
        let Ok(parent) = self.parent.try_borrow() else {
            return;
        };
        let full = full_since(self.full.get(), parent.waiting(), self.board.now());
        self.full.set(full);
        let watch = parent.watch();
        self.board.watch(
            PARENT,
            Watch {
                gives: false,
                ..watch
            },
        );
        self.board.watch(
            ANSWERS,
            Watch {
                descriptor: parent.output(),
                takes: false,
                gives: watch.gives,
                due: self.due(),
            },
        );
    }
}
