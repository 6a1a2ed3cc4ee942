ghost use Rattle.std.specs.Prelude.{◌≡◌, ◌≢◌, ◌≤◌, ◌∷◌, ◌++◌, [], ℕ, List, Option, IfOk, IfSome, OnOk, OnErr, IsErr};
ghost use Rattle.std.specs.Prelude.{IsErrOf};
ghost use Rattle.edge_io.specs.declared.endpoint.Endpoint.{Endpoint};
ghost use Rattle.edge_io.specs.declared.datagram.Datagram.{Datagram};
ghost use Rattle.edge_io.specs.Edge.{Grew, HasCause, HasCauseOf};
ghost use Rattle.edge_io.specs.Arrivals.{IsListening, Receives};
ghost use Rattle.edge_io.specs.Plan.{Plan, FollowsPlan};

use crate::datagram::DATAGRAM_BYTES;
use crate::refusal::{EdgeRefusal, Failed};

/// What carries datagrams between actors, as a network: it may lose, repeat, delay and reorder them.
pub trait Links {
    /// The endpoints that were opened, in their order. Every implementation tells them.
    ghost opened: { Self → List Endpoint };

    /// What is still to arrive at each actor, in order, where it tells: a datagram's bytes, or that one is
    /// absent, so that one call finds nothing.
    ghost arrivals: { Self → ℕ → Option (List (Option (List ℕ))) };

    /// What was sent, in order, where it tells.
    ghost sent: { Self → Option (List Datagram) };

    /// How often it has failed. The count never falls.
    ghost faults: { Self → ℕ };

    /// Which of its calls fail, where it tells.
    ghost plan: { Self → Option Plan };

    /// Opens the endpoint of an actor. A refused call opens none.
    fn listen(&mut self, actor: u16, at: &str) -> Result<(), EdgeRefusal>
        ensures ok { OnOk result (opened self.new ≡ opened self.old ++ record { actor = actor; at = at.now } ∷ []) }
        ensures err { OnErr result (opened self.new ≡ opened self.old) }
        ensures sent { sent self.new ≡ sent self.old }
        ensures arrivals { (any : ℕ) → arrivals self.new any ≡ arrivals self.old any }
        ensures cause { HasCauseOf EdgeRefusal.Failed (faults self.old) (faults self.new) result }
        ensures plan { FollowsPlan (plan self.old) (plan self.new) (faults self.old) (faults self.new) (IsErrOf result EdgeRefusal.Failed) };

    /// Sends the bytes from an actor that listens to an address. A refused call sends nothing.
    fn send(&mut self, from: u16, to: &str, bytes: &[u8]) -> Result<(), EdgeRefusal>
        requires { IsListening from (opened self.old) }
        ensures ok { OnOk result (Grew (sent self.old) (sent self.new)
            (record { from = from; to = to.now; bytes = bytes.now } ∷ [])) }
        ensures err { OnErr result (sent self.new ≡ sent self.old) }
        ensures opened { opened self.new ≡ opened self.old }
        ensures arrivals { (any : ℕ) → arrivals self.new any ≡ arrivals self.old any }
        ensures cause { HasCauseOf EdgeRefusal.Failed (faults self.old) (faults self.new) result }
        ensures plan { FollowsPlan (plan self.old) (plan self.new) (faults self.old) (faults self.new) (IsErrOf result EdgeRefusal.Failed) };

    /// Takes the next datagram that arrived at an actor that listens, puts its bytes at the start of the
    /// buffer and says how many they are; None where none is there. A refused call takes none.
    fn receive(
        &mut self,
        actor: u16,
        into: &mut [u8; DATAGRAM_BYTES],
    ) -> Result<Option<usize>, Failed>
        requires { IsListening actor (opened self.old) }
        ensures length { IfOk result (λ answer. IfSome answer (λ n. n ≤ DATAGRAM_BYTES)) }
        ensures ok { IfOk result (λ answer. Receives (arrivals self.old actor) answer into.new
            (arrivals self.new actor)) }
        ensures err { OnErr result (arrivals self.new actor ≡ arrivals self.old actor) }
        ensures others { (other : ℕ) → other ≢ actor → arrivals self.new other ≡ arrivals self.old other }
        ensures opened { opened self.new ≡ opened self.old }
        ensures sent { sent self.new ≡ sent self.old }
        ensures cause { HasCause (faults self.old) (faults self.new) result }
        ensures plan { FollowsPlan (plan self.old) (plan self.new) (faults self.old) (faults self.new) (IsErr result) };
}
