ghost use Rattle.std.specs.Prelude.{◌≡◌, ◌≤◌, map, length, take};
ghost use Rattle.door_io.specs.Memory.{told_scripted};

use crate::door::{Door, Said};
use crate::limits::MAX_ASKED;
use crate::mem_client::MemClient;
use std::marker::Model;

/// What a door in memory is to say.
#[derive(Drop)]
pub enum Scripted {
    /// A line of a client. With more than `MAX_ASKED` bytes it is too long.
    Line(u32, Vec<u8>),
    /// A line of a client is too long.
    TooLong(u32),
    /// A client has gone.
    Gone(u32),
    /// Nothing has come.
    Quiet,
}

/// A door in memory: what comes is given beforehand, one entry a call, and what is said is noted by client. Client n is
/// the n-th of the clients, from 0, and any other is dropped. It tells all.
#[derive(Drop)]
pub struct MemDoor {
    script: Vec<Scripted>,
    given: usize,
    clients: Vec<MemClient>,
}

impl Model for MemDoor {
    ghost use Rattle.std.specs.Prelude.{◌≤◌, drop, length, map};
    ghost use Rattle.door_io.specs.Memory.{ToldDoor, told_scripted};

    ghost Value = { ToldDoor };

    ghost view = { λ d. record {
      script = map told_scripted (drop d.given d.script.items);
      clients = d.clients.items;
    } };

    ghost invariant = { λ d. d.given ≤ length d.script.items };
}

impl MemDoor {
    /// This is to come, to these clients.
    pub fn new(script: Vec<Scripted>, clients: Vec<MemClient>) -> Self
        ensures { result ≡ record { script = map told_scripted script.items; clients = clients.items } }
    {
        MemDoor {
            script,
            given: 0,
            clients,
        }
    }

    /// The clients, by their numbers.
    pub fn clients(&self) -> &[MemClient]
        ensures { result.now ≡ self.now.clients }
    {
        self.clients.as_slice()
    }
}

/// Copies the line to the front of the buffer.
fn copy_line(line: &[u8], into: &mut [u8; MAX_ASKED])
    requires { length line.now ≤ MAX_ASKED }
    ensures { take (length line.now) into.new ≡ line.now }
{
    into[..line.len()].copy_from_slice(line);
}

impl Door for MemDoor {
    ghost use Rattle.std.specs.Prelude.{Some, slice_get};
    ghost use Rattle.door_io.specs.Memory.{is_dropped, said_to, to_come};

    ghost asked = { λ d. Some (to_come d.script) };

    ghost answered = { λ d client. Some (said_to (slice_get d.clients client)) };

    ghost dropped = { λ d client. is_dropped (slice_get d.clients client) };

    fn next(&mut self, into: &mut [u8; MAX_ASKED]) -> Said {
        if self.given == self.script.len() {
            return Said::Quiet;
        }
        let at = self.given;
        self.given += 1;
        match &self.script[at] {
            Scripted::Line(client, line) => {
                if line.len() > into.len() {
                    return Said::TooLong(*client);
                }
                copy_line(line, into);
                Said::Line(*client, line.len())
            }
            Scripted::TooLong(client) => Said::TooLong(*client),
            Scripted::Gone(client) => Said::Gone(*client),
            Scripted::Quiet => Said::Quiet,
        }
    }

    fn answer(&mut self, client: u32, text: &[u8]) {
        let at = client as usize;
        if at < self.clients.len() {
            self.clients[at].hear(text);
        }
    }

    fn close(&mut self, client: u32) {
        let at = client as usize;
        if at < self.clients.len() {
            self.clients[at].close();
        }
    }
}
