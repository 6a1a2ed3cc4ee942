ghost use Rattle.std.specs.Prelude.{◌≤◌, IfOk, IfSome};
ghost use Rattle.edge_io.specs.Arrivals.{IsListening};
ghost use Rattle.edge_io.specs.Told.{Told, Listens, Sends, Receives, Keeps, Recalls, Writes, ReadsClock};

use crate::datagram::DATAGRAM_BYTES;
use crate::refusal::{EdgeRefusal, Failed};

/// What a running program sees of the world: its links, its keeper, its clock and its sink. Each call is that of the
/// device, and leaves what the others tell as it was.
pub trait Outside {
    /// What all of them tell.
    ghost told: { Self → Told };

    /// Opens the endpoint of an actor at an address. A refused call opens none.
    fn listen(&mut self, actor: u16, at: &str) -> Result<(), EdgeRefusal>
        ensures { Listens actor at.now (told self.old) result (told self.new) };

    /// Sends the bytes from an actor that listens to an address. A refused call sends nothing.
    fn send(&mut self, from: u16, to: &str, bytes: &[u8]) -> Result<(), EdgeRefusal>
        requires { IsListening from (told self.old).opened }
        ensures { Sends from to.now bytes.now (told self.old) result (told self.new) };

    /// Takes the next datagram that arrived at an actor that listens, puts its bytes at the start of the buffer and
    /// says how many they are; None where none is there. A refused call takes none.
    fn receive(
        &mut self,
        actor: u16,
        into: &mut [u8; DATAGRAM_BYTES],
    ) -> Result<Option<usize>, Failed>
        requires { IsListening actor (told self.old).opened }
        ensures length { IfOk result (λ answer. IfSome answer (λ n. n ≤ DATAGRAM_BYTES)) }
        ensures received { Receives actor into.new (told self.old) result (told self.new) };

    /// The records of an actor, oldest first. Reading changes no list.
    fn records(&mut self, actor: u16) -> Result<Vec<Vec<u8>>, EdgeRefusal>
        ensures { Recalls actor (told self.old) result (told self.new) };

    /// Adds a record at the end of those of an actor, and waits until it is kept for good. After a refusal the list is
    /// as before, or has the record too.
    fn append_synced(&mut self, actor: u16, bytes: &[u8]) -> Result<(), EdgeRefusal>
        ensures { Keeps actor bytes.now (told self.old) result (told self.new) };

    /// The reading of the clock, in ticks.
    fn now(&mut self) -> u64
        ensures { ReadsClock result (told self.old) (told self.new) };

    /// Writes the whole text, or a front of it with a refusal.
    fn write_all(&mut self, text: &[u8]) -> Result<(), EdgeRefusal>
        ensures { Writes text.now (told self.old) result (told self.new) };
}
