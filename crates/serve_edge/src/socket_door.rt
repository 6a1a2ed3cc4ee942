ghost use Rattle.std.specs.Prelude.{◌<◌};

use crate::door_clients::DoorClients;
use crate::gate::{Gate, Listener};
use crate::limits::MAX_ADMITTED;
use crate::places::place_behind;
use crate::seats::DOOR;
use door_io::{Door, MAX_ASKED, MAX_CLIENTS, Said};
use std::os::unix::net::UnixListener;

/// The door of a served process: a Unix socket, and the connections to it. One line of each client comes in rotation. A
/// connection for which there is no place is closed.
#[derive(Drop)]
pub struct SocketDoor<'a> {
    gate: Gate<'a>,
    clients: &'a DoorClients<'a>,
    /// The place that is asked first.
    first: usize,
    ghost first_in: { first < 64 },
}

impl<'a> SocketDoor<'a> {
    /// Clients come to this listener, which does not wait.
    pub fn new(clients: &'a DoorClients<'a>, listener: UnixListener) -> Self {
        SocketDoor {
            gate: Gate::new(clients.board(), DOOR, Listener::Door(listener)),
            clients,
            first: 0,
        }
    }
}

impl SocketDoor<'_> {
    /// How many clients there are.
    pub fn clients(&self) -> usize {
        self.clients.count()
    }

    /// How many clients were dropped: there was no place for them, or they did not read.
    pub fn dropped(&self) -> u64 {
        self.clients.dropped()
    }

    /// Takes connections that have come.
    fn admit(&mut self) {
        for _ in 0..MAX_ADMITTED {
            let Some(wire) = self.gate.next() else {
                return;
            };
            self.clients.admit(wire);
        }
    }
}

impl Door for SocketDoor<'_> {
    ghost use Rattle.std.specs.Prelude.{None, true};

    ghost asked = { λ d. None };

    ghost answered = { λ d client. None };

    // It does not tell what a client has read: any may have been dropped.
    ghost dropped = { λ d client. true };

    fn next(&mut self, into: &mut [u8; MAX_ASKED]) -> Said {
        self.admit();
        for step in 0..MAX_CLIENTS {
            let place = place_behind(self.first, step, MAX_CLIENTS);
            let said = self.clients.next_at(place, into);
            if said != Said::Quiet {
                self.first = place_behind(place, 1, MAX_CLIENTS);
                return said;
            }
        }
        Said::Quiet
    }

    fn answer(&mut self, client: u32, text: &[u8]) {
        self.clients.answer(client, text);
    }

    fn close(&mut self, client: u32) {
        self.clients.close(client);
    }
}
