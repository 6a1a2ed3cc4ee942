ghost use Rattle.std.specs.Prelude.{◌<◌};
ghost use Rattle.door_io.specs.Pages.{FitsHead};

use crate::board::PollBoard;
use crate::gate::{Gate, Listener};
use crate::limits::MAX_ADMITTED;
use crate::places::{place_behind, place_of};
use crate::reader::Reader;
use crate::seats::{PAGE, READERS};
use crate::slot::Slot;
use crate::watch::Watch;
use crate::wire::Wire;
use door_io::{MAX_HEAD, MAX_PAGE_CLIENTS, PageDoor};
use std::alloc::{AllocError, Global};
use std::net::TcpListener;

/// The page of a served process: a TCP socket, and the connections to it, one request each. A head that does not come
/// within `MAX_HEAD_TICKS`, and an answer that is not taken within `MAX_PAGE_TICKS`, close the connection. One for
/// which there is no place is closed at once.
#[derive(Drop)]
pub struct PageSockets<'a> {
    alloc: Global,
    board: &'a PollBoard,
    gate: Gate<'a>,
    readers: Vec<Slot<Reader>>,
    /// The place that is asked first.
    first: usize,
    ghost first_in: { first < 16 },
}

impl<'a> PageSockets<'a> {
    /// Nobody has come to this listener, which does not wait.
    pub fn new(
        alloc: Global,
        board: &'a PollBoard,
        listener: TcpListener,
    ) -> Result<Self, AllocError> {
        let mut readers = Vec::new(alloc);
        for place in 0..MAX_PAGE_CLIENTS {
            readers.push(Slot::new(place as u32))?;
        }
        Ok(PageSockets {
            alloc,
            board,
            gate: Gate::new(board, PAGE, Listener::Page(listener)),
            readers,
            first: 0,
        })
    }
}

impl PageSockets<'_> {
    /// Takes connections that have come.
    fn admit(&mut self) {
        for _ in 0..MAX_ADMITTED {
            let Some(wire) = self.gate.next() else {
                return;
            };
            self.settle(wire);
        }
    }

    /// Gives a connection the first free place, or closes it.
    fn settle(&mut self, wire: Wire) {
        if let Some(place) = self.readers.iter().position(|slot| slot.is_free()) {
            let reader = Reader::new(self.alloc, wire, self.board.now());
            self.board.watch(READERS + place, reader.watch());
            self.readers[place].begin(reader);
        }
    }

    /// Takes what comes next at a place.
    fn next_at(&mut self, place: usize, into: &mut [u8; MAX_HEAD]) -> Option<(u32, usize)>
        ensures { FitsHead result }
    {
        let slot = self.readers.get_mut(place)?;
        let number = slot.number;
        let reader = slot.held.as_mut()?;
        let grown = reader.next(self.board.now(), into);
        let mut watch = reader.watch();
        if reader.is_over() {
            slot.held = None;
            watch = Watch::none();
        }
        self.board.watch(READERS + place, watch);
        Some((number, grown?))
    }
}

impl PageDoor for PageSockets<'_> {
    ghost use Rattle.std.specs.Prelude.{None, false};

    ghost heads = { λ p. None };

    ghost answered = { λ p client. None };

    ghost dropped = { λ p client. false };

    fn next(&mut self, into: &mut [u8; MAX_HEAD]) -> Option<(u32, usize)> {
        self.admit();
        for step in 0..MAX_PAGE_CLIENTS {
            let place = place_behind(self.first, step, MAX_PAGE_CLIENTS);
            if let Some(grown) = self.next_at(place, into) {
                self.first = place_behind(place, 1, MAX_PAGE_CLIENTS);
                return Some(grown);
            }
        }
        None
    }

    fn answer(&mut self, client: u32, text: &[u8]) {
        let place = place_of(client);
        let Some(slot) = self.readers.get_mut(place) else {
            return;
        };
        if slot.number != client {
            return;
        }
        if let Some(reader) = &mut slot.held {
            reader.answer(text, self.board.now());
            self.board.watch(READERS + place, reader.watch());
        }
    }
}
