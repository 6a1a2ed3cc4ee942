ghost use Rattle.std.specs.Prelude.{◌≡◌, ◌≤◌, map, length, take};
ghost use Rattle.door_io.specs.Memory.{told_head};
ghost use Rattle.door_io.specs.Pages.{most_head};

use crate::limits::MAX_HEAD;
use crate::mem_client::MemClient;
use crate::page_door::PageDoor;
use std::marker::Model;

/// What the door of a page in memory is to bring.
#[derive(Drop)]
pub enum ScriptedHead {
    /// All of a client's head that has come. Of more than `MAX_HEAD` bytes the front comes.
    Grown(u32, Vec<u8>),
    /// No head has grown.
    Quiet,
}

/// The door of a page in memory: what comes is given beforehand, one entry a call, and what is answered is noted by
/// client. Client n is the n-th of the clients, from 0, and any other is dropped. It tells all.
#[derive(Drop)]
pub struct MemPageDoor {
    script: Vec<ScriptedHead>,
    given: usize,
    clients: Vec<MemClient>,
}

impl Model for MemPageDoor {
    ghost use Rattle.std.specs.Prelude.{◌≤◌, drop, length, map};
    ghost use Rattle.door_io.specs.Memory.{ToldPage, told_head};

    ghost Value = { ToldPage };

    ghost view = { λ d. record {
      script = map told_head (drop d.given d.script.items);
      clients = d.clients.items;
    } };

    ghost invariant = { λ d. d.given ≤ length d.script.items };
}

impl MemPageDoor {
    /// This is to come, to these clients.
    pub fn new(script: Vec<ScriptedHead>, clients: Vec<MemClient>) -> Self
        ensures { result ≡ record { script = map told_head script.items; clients = clients.items } }
    {
        MemPageDoor {
            script,
            given: 0,
            clients,
        }
    }

    /// The clients, by their numbers.
    pub fn clients(&self) -> &[MemClient]
        ensures { result.now ≡ self.now.clients }
    {
        self.clients.as_slice()
    }
}

/// The head, or the front of it that fits.
fn front_of(head: &[u8]) -> &[u8]
    ensures fits { length result.now ≤ most_head }
    ensures front { result.now ≡ take most_head head.now }
{
    if head.len() > MAX_HEAD {
        &head[..MAX_HEAD]
    } else {
        head
    }
}

/// Copies the head to the front of the buffer.
fn copy_head(head: &[u8], into: &mut [u8; MAX_HEAD])
    requires { length head.now ≤ MAX_HEAD }
    ensures { take (length head.now) into.new ≡ head.now }
{
    into[..head.len()].copy_from_slice(head);
}

impl PageDoor for MemPageDoor {
    ghost use Rattle.std.specs.Prelude.{Some, slice_get};
    ghost use Rattle.door_io.specs.Memory.{is_dropped, said_to, to_come};

    ghost heads = { λ d. Some (to_come d.script) };

    ghost answered = { λ d client. Some (said_to (slice_get d.clients client)) };

    ghost dropped = { λ d client. is_dropped (slice_get d.clients client) };

    fn next(&mut self, into: &mut [u8; MAX_HEAD]) -> Option<(u32, usize)> {
        if self.given == self.script.len() {
            return None;
        }
        let at = self.given;
        self.given += 1;
        match &self.script[at] {
            ScriptedHead::Grown(client, head) => {
                let front = front_of(head);
                copy_head(front, into);
                Some((*client, front.len()))
            }
            ScriptedHead::Quiet => None,
        }
    }

    fn answer(&mut self, client: u32, text: &[u8]) {
        let at = client as usize;
        if at < self.clients.len() {
            self.clients[at].hear(text);
        }
    }
}
