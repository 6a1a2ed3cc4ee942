ghost use Rattle.std.specs.Prelude.{◌≡◌, ℕ, Bool, List, Option};
ghost use Rattle.door_io.specs.Doors.{GivesFirst, SaysOrDrops};
ghost use Rattle.door_io.specs.Pages.{FitsHead, Grown, grown};

use crate::limits::MAX_HEAD;

/// Where clients ask for the page, each by the head of one request, and are answered once. Each client has a number of
/// its own.
pub trait PageDoor {
    /// The heads that are still to come, each as far as it has come then, in order, where the device tells.
    ghost heads: { Self → Option (List Grown) };

    /// What was answered to each client, where the device tells.
    ghost answered: { Self → ℕ → Option (List ℕ) };

    /// Whether a client was dropped: nothing is answered to it any more.
    ghost dropped: { Self → ℕ → Bool };

    /// A client whose head has grown, and how many bytes of it stand at the front of the buffer. It does not wait.
    fn next(&mut self, into: &mut [u8; MAX_HEAD]) -> Option<(u32, usize)>
        ensures length { FitsHead result }
        ensures heads { GivesFirst (heads self.old) (grown result into.new) (heads self.new) }
        ensures answered { (any : ℕ) → answered self.new any ≡ answered self.old any }
        ensures dropped { (any : ℕ) → dropped self.new any ≡ dropped self.old any };

    /// Answers a client with the whole text, or drops the client. The text is written as the client takes it, and the
    /// connection is closed then. It does not wait, and it does not fail.
    fn answer(&mut self, client: u32, text: &[u8])
        ensures said { SaysOrDrops client text.now (answered self.old) (answered self.new) (dropped self.old)
            (dropped self.new) }
        ensures heads { heads self.new ≡ heads self.old };
}
