ghost use Rattle.door_io.specs.Clients.{Asks, ClientsTold, Closes, Logs, Loses, Says};
ghost use Rattle.door_io.specs.Doors.{FitsBuffer, came};

use crate::door::Said;
use crate::limits::MAX_ASKED;

/// The door and the log of a served process as one. No call waits or fails.
pub trait Clients {
    /// What both of them tell.
    ghost told: { Self → ClientsTold };

    /// Takes what came next at the door, a line into the front of the buffer.
    fn next(&mut self, into: &mut [u8; MAX_ASKED]) -> Said
        ensures length { FitsBuffer result }
        ensures asks { Asks (came result into.new) (told self.old) (told self.new) };

    /// Says the whole text to a client, or drops the client.
    fn say(&mut self, client: u32, text: &[u8])
        ensures { Says client text.now (told self.old) (told self.new) };

    /// Drops a client, as where its answer finds no memory.
    fn close(&mut self, client: u32)
        ensures { Closes client (told self.old) (told self.new) };

    /// Puts the line into the log, or counts it as lost.
    fn log(&mut self, line: &[u8])
        ensures { Logs line.now (told self.old) (told self.new) };

    /// Counts a line of the log as lost, as where it finds no memory.
    fn lose(&mut self)
        ensures { Loses (told self.old) (told self.new) };
}
