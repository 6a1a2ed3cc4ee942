ghost use Rattle.std.specs.Prelude.{◌≡◌, ℕ, Bool, true, List, Option};
ghost use Rattle.door_io.specs.Doors.{Arrived, FitsBuffer, GivesFirst, SaysOrDrops, came};

use crate::limits::MAX_ASKED;

/// What a door has to say.
#[derive(Clone, Copy, Debug, PartialEq, Eq)]
pub enum Said {
    /// A line of a client, with so many bytes, without its line feed.
    Line(u32, usize),
    /// A line of a client has more than `MAX_ASKED` bytes.
    TooLong(u32),
    /// A client has gone. Nothing more comes of it.
    Gone(u32),
    /// Nothing has come.
    Quiet,
}

/// Where clients ask and are answered, line by line. Each client has a number of its own.
pub trait Door {
    /// What is still to come, in order, where the door tells.
    ghost asked: { Self → Option (List Arrived) };

    /// What was said to each client, in order, where the door tells.
    ghost answered: { Self → ℕ → Option (List ℕ) };

    /// Whether a client was dropped: nothing is said to it any more.
    ghost dropped: { Self → ℕ → Bool };

    /// Takes what came next, a line into the front of the buffer. It does not wait.
    fn next(&mut self, into: &mut [u8; MAX_ASKED]) -> Said
        ensures length { FitsBuffer result }
        ensures asked { GivesFirst (asked self.old) (came result into.new) (asked self.new) }
        ensures answered { (any : ℕ) → answered self.new any ≡ answered self.old any }
        ensures dropped { (any : ℕ) → dropped self.new any ≡ dropped self.old any };

    /// Says the whole text to a client, or drops the client. It does not wait, and it does not fail.
    fn answer(&mut self, client: u32, text: &[u8])
        ensures said { SaysOrDrops client text.now (answered self.old) (answered self.new) (dropped self.old)
            (dropped self.new) }
        ensures asked { asked self.new ≡ asked self.old };

    /// Drops a client: nothing is said to it any more.
    fn close(&mut self, client: u32)
        ensures said { (text : List ℕ) → SaysOrDrops client text (answered self.old) (answered self.new)
            (dropped self.old) (dropped self.new) }
        ensures dropped { dropped self.new client ≡ true }
        ensures asked { asked self.new ≡ asked self.old };
}
