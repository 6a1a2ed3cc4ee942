ghost use Rattle.std.specs.Prelude.{◌≡◌, ◌+◌, ◌<◌, ◌++◌, true, false, length};
ghost use Rattle.door_io.specs.Memory.{fresh_client};

use std::alloc::Global;
use std::marker::Model;

/// A client of a door in memory. It takes so many bytes, and is dropped when more are said to it.
#[derive(Drop)]
pub struct MemClient {
    room: usize,
    said: Vec<u8>,
    dropped: bool,
}

impl Model for MemClient {
    ghost use Rattle.std.specs.Prelude.{◌≤◌, length};
    ghost use Rattle.door_io.specs.Memory.{ToldClient};

    ghost Value = { ToldClient };

    ghost view = { λ c. record { room = c.room; said = c.said.items; dropped = c.dropped } };

    ghost invariant = { λ c. length c.said.items ≤ c.room };
}

impl MemClient {
    /// Nothing was said to it, and it takes so many bytes in all.
    pub fn new(alloc: Global, room: usize) -> Self
        ensures { result ≡ fresh_client room }
    {
        MemClient {
            room,
            said: Vec::new(alloc),
            dropped: false,
        }
    }

    /// What was said to it.
    pub fn said(&self) -> &[u8]
        ensures { result.now ≡ self.now.said }
    {
        &self.said
    }

    /// Whether it was dropped.
    pub fn is_dropped(&self) -> bool
        ensures { result ≡ self.now.dropped }
    {
        self.dropped
    }

    /// Drops it.
    pub fn close(&mut self)
        ensures { self.new ≡ record self.old { dropped = true } }
    {
        self.dropped = true;
    }

    /// Says the text to it, or drops it, where the text finds no room or no memory.
    pub fn hear(&mut self, text: &[u8])
        ensures whole { self.new.dropped ≡ false →
            self.new ≡ record self.old { said = self.old.said ++ text.now } }
        ensures nothing { self.new.dropped ≡ true → self.new ≡ record self.old { dropped = true } }
        ensures full { self.old.room < length self.old.said + length text.now → self.new.dropped ≡ true }
        ensures stays { self.old.dropped ≡ true → self.new.dropped ≡ true }
    {
        if self.dropped {
            return;
        }
        if self.room - self.said.len() < text.len() {
            self.dropped = true;
            return;
        }
        if self.said.extend_from_slice(text).is_err() {
            self.dropped = true;
        }
    }
}
