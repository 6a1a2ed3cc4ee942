ghost use Rattle.door_io.specs.Doors.{FitsBuffer};

use crate::parent_stream::{PARENT_CLIENT, ParentStream};
use crate::socket_door::SocketDoor;
use door_io::{Door, MAX_ASKED, Said};

/// The door of a served process: lines of its parent, if it has one, come in turn with those of the socket's clients.
#[derive(Drop)]
pub struct ServedDoor<'a> {
    door: SocketDoor<'a>,
    parent: Option<&'a ParentStream<'a>>,
    /// Whether the parent is asked before the socket's clients.
    parent_first: bool,
}

impl<'a> ServedDoor<'a> {
    /// The clients of this door, and this parent.
    pub fn new(door: SocketDoor<'a>, parent: Option<&'a ParentStream<'a>>) -> Self {
        ServedDoor {
            door,
            parent,
            parent_first: true,
        }
    }
}

impl ServedDoor<'_> {
    /// How many clients of the socket there are.
    pub fn clients(&self) -> usize {
        self.door.clients()
    }

    /// How many clients of the socket were dropped.
    pub fn dropped(&self) -> u64 {
        self.door.dropped()
    }
}

/// Takes what comes next of the parent.
fn next_of_parent(parent: &Option<&ParentStream<'_>>, into: &mut [u8; MAX_ASKED]) -> Said
    ensures { FitsBuffer result }
{
    match parent {
        Some(parent) => parent.next(into),
        None => Said::Quiet,
    }
}

impl Door for ServedDoor<'_> {
    ghost use Rattle.std.specs.Prelude.{None, true};

    ghost asked = { λ d. None };

    ghost answered = { λ d client. None };

    // It does not tell what a client has read: any may have been dropped.
    ghost dropped = { λ d client. true };

    fn next(&mut self, into: &mut [u8; MAX_ASKED]) -> Said {
        let parent_first = self.parent_first;
        let said = if parent_first {
            next_of_parent(&self.parent, into)
        } else {
            self.door.next(into)
        };
        if said != Said::Quiet {
            self.parent_first = !parent_first;
            return said;
        }
        if parent_first {
            self.door.next(into)
        } else {
            next_of_parent(&self.parent, into)
        }
    }

    fn answer(&mut self, client: u32, text: &[u8]) {
        match self.parent {
            Some(parent) if client == PARENT_CLIENT => parent.say(text),
            _ => self.door.answer(client, text),
        }
    }

    fn close(&mut self, client: u32) {
        match self.parent {
            Some(parent) if client == PARENT_CLIENT => parent.close(),
            _ => self.door.close(client),
        }
    }
}
