ghost use Rattle.door_io.specs.Doors.{FitsBuffer};
ghost use Rattle.serve_edge.specs.Comes.{FitsLine};

use crate::board::PollBoard;
use crate::client::{Came, Client};
use crate::places::place_of;
use crate::seats::CLIENTS;
use crate::slot::Slot;
use crate::watch::Watch;
use crate::wire::Wire;
use door_io::{MAX_ASKED, MAX_CLIENTS, MAX_UNREAD, Said};
use std::alloc::{AllocError, Global};
use std::cell::{Cell, RefCell};

/// The clients of a door on a socket, each at its place. The door and the rest share them: the door takes their lines
/// and says what they are answered, and the rest writes it, since the records on which it rests are synced before a
/// rest. A client for which more than `MAX_UNREAD` bytes wait is dropped, and one that has ended is gone as soon as
/// nothing waits for it.
#[derive(Drop)]
pub struct DoorClients<'a> {
    alloc: Global,
    board: &'a PollBoard,
    slots: RefCell<Vec<Slot<Client>>>,
    /// How many clients were dropped: there was no place for them, or they did not read.
    dropped: Cell<u64>,
}

impl<'a> DoorClients<'a> {
    /// Nobody has come.
    pub fn new(alloc: Global, board: &'a PollBoard) -> Result<Self, AllocError> {
        let mut slots = Vec::new(alloc);
        for place in 0..MAX_CLIENTS {
            slots.push(Slot::new(place as u32))?;
        }
        Ok(DoorClients {
            alloc,
            board,
            slots: RefCell::new(slots),
            dropped: Cell::new(0),
        })
    }

    /// Where it is said what is awaited of them.
    pub(crate) fn board(&self) -> &'a PollBoard {
        self.board
    }
}

impl DoorClients<'_> {
    /// How many there are.
    pub fn count(&self) -> usize {
        match self.slots.try_borrow() {
            Ok(slots) => slots.iter().filter(|slot| !slot.is_free()).count(),
            Err(_) => 0,
        }
    }

    /// How many were dropped: there was no place for them, or they did not read.
    pub fn dropped(&self) -> u64 {
        self.dropped.get()
    }

    fn count_dropped(&self) {
        self.dropped.set(self.dropped.get().saturating_add(1));
    }

    /// Writes what was said to them, as far as they take it at once.
    pub fn write_out(&self) {
        let Ok(mut slots) = self.slots.try_borrow_mut() else {
            return;
        };
        for (place, slot) in slots.iter_mut().enumerate() {
            if let Some(client) = &mut slot.held {
                client.flush();
                self.board.watch(CLIENTS + place, client.watch());
            }
        }
    }

    /// Gives a connection the first free place, or closes it.
    pub(crate) fn admit(&self, wire: Wire) {
        let Ok(mut slots) = self.slots.try_borrow_mut() else {
            return;
        };
        let Some(place) = slots.iter().position(|slot| slot.is_free()) else {
            self.count_dropped();
            return;
        };
        if let Ok(client) = Client::new(self.alloc, wire, MAX_UNREAD) {
            self.board.watch(CLIENTS + place, client.watch());
            slots[place].begin(client);
        }
    }

    /// Takes what comes next at a place.
    pub(crate) fn next_at(&self, place: usize, into: &mut [u8; MAX_ASKED]) -> Said
        ensures { FitsBuffer result }
    {
        let Ok(mut slots) = self.slots.try_borrow_mut() else {
            return Said::Quiet;
        };
        let Some(slot) = slots.get_mut(place) else {
            return Said::Quiet;
        };
        let number = slot.number;
        let Some(client) = &mut slot.held else {
            return Said::Quiet;
        };
        let came = client.next(into);
        let mut watch = client.watch();
        if came == Came::Gone {
            slot.held = None;
            watch = Watch::none();
        }
        self.board.watch(CLIENTS + place, watch);
        said_by(number, came)
    }

    /// Says the text to a client: it waits for the next rest.
    pub(crate) fn answer(&self, client: u32, text: &[u8]) {
        let Ok(mut slots) = self.slots.try_borrow_mut() else {
            return;
        };
        let place = place_of(client);
        let Some(slot) = slots.get_mut(place) else {
            return;
        };
        if slot.number != client {
            return;
        }
        if let Some(held) = &mut slot.held {
            let is_dropped = held.hear(text);
            self.board.watch(CLIENTS + place, held.watch());
            if is_dropped {
                self.count_dropped();
            }
        }
    }

    /// Drops a client: nothing is said to it any more.
    pub(crate) fn close(&self, client: u32) {
        let Ok(mut slots) = self.slots.try_borrow_mut() else {
            return;
        };
        let place = place_of(client);
        let Some(slot) = slots.get_mut(place) else {
            return;
        };
        if slot.number != client {
            return;
        }
        if let Some(held) = &mut slot.held {
            held.close();
            self.board.watch(CLIENTS + place, held.watch());
        }
    }
}

/// What came of a client with this number.
pub fn said_by(number: u32, came: Came) -> Said
    requires { FitsLine came }
    ensures { FitsBuffer result }
{
    match came {
        Came::Line(count) => Said::Line(number, count),
        Came::TooLong => Said::TooLong(number),
        Came::Gone => Said::Gone(number),
        Came::Nothing => Said::Quiet,
    }
}
