ghost use Rattle.std.specs.Prelude.{◌≡◌, ◌≢◌, ◌≤◌, ◌∷◌, ◌++◌, [], ℕ, Bool, true, false, List, Option, IfOk, IfSome};
ghost use Rattle.std.specs.Prelude.{OnOk, OnErr};
ghost use Rattle.edge_io.specs.declared.datagram.Datagram.{Datagram};
ghost use Rattle.edge_io.specs.Arrivals.{IsListening, Receives};
ghost use Rattle.edge_io.specs.Edge.{Grew, HasCause, HasCauseOf};
ghost use Rattle.group_commit.specs.Given.{Given};

use edge_io::{DATAGRAM_BYTES, EdgeRefusal, Failed, Links};

/// Links that can hold frames back. A frame that waits counts as sent, and is late.
pub trait Outgoing: Links {
    /// Whether the next frame waits.
    ghost holds: { Self → Bool };

    /// The frames that wait, the oldest first.
    ghost queue: { Self → List Datagram };

    /// What has left, in order, where it is told: what the links below have sent.
    ghost left: { Self → Option (List Datagram) };

    /// How many of the frames that waited the links below did not send.
    ghost lost: { Self → ℕ };

    /// Whether so many frames wait that they should leave before the next one.
    ghost full: { Self → Bool };

    /// Whether the next frame waits.
    fn is_holding(&self) -> bool
        ensures { result ≡ holds self.now };

    /// Whether so many frames wait that they should leave before the next one.
    fn is_full(&self) -> bool
        ensures { result ≡ full self.now };

    /// From now on each frame waits.
    fn hold_back(&mut self)
        ensures holds { holds self.new ≡ true }
        ensures queue { queue self.new ≡ queue self.old }
        ensures left { left self.new ≡ left self.old }
        ensures lost { lost self.new ≡ lost self.old }
        ensures sent { Self.sent self.new ≡ Self.sent self.old }
        ensures opened { Self.opened self.new ≡ Self.opened self.old }
        ensures arrivals { Self.arrivals self.new ≡ Self.arrivals self.old }
        ensures faults { Self.faults self.new ≡ Self.faults self.old };

    /// Sends a frame at once, or queues it where the next frame waits. A refused call does neither.
    fn pass_or_queue(&mut self, from: u16, to: &str, bytes: &[u8]) -> Result<(), EdgeRefusal>
        requires { IsListening from (Self.opened self.old) }
        ensures queued { holds self.old ≡ true → OnOk result
            (queue self.new ≡ queue self.old ++ record { from = from; to = to.now; bytes = bytes.now } ∷ []) }
        ensures waits { holds self.old ≡ true → left self.new ≡ left self.old }
        ensures passed { holds self.old ≡ false → OnOk result (Grew (left self.old) (left self.new)
            (record { from = from; to = to.now; bytes = bytes.now } ∷ [])) }
        ensures stays { holds self.old ≡ false → queue self.new ≡ queue self.old }
        ensures refused { OnErr result (queue self.new ≡ queue self.old) }
        ensures unsent { OnErr result (left self.new ≡ left self.old) }
        ensures holds { holds self.new ≡ holds self.old }
        ensures lost { lost self.new ≡ lost self.old }
        ensures sent { OnOk result (Grew (Self.sent self.old) (Self.sent self.new)
            (record { from = from; to = to.now; bytes = bytes.now } ∷ [])) }
        ensures same { OnErr result (Self.sent self.new ≡ Self.sent self.old) }
        ensures opened { Self.opened self.new ≡ Self.opened self.old }
        ensures arrivals { (any : ℕ) → Self.arrivals self.new any ≡ Self.arrivals self.old any }
        ensures cause { HasCauseOf EdgeRefusal.Failed (Self.faults self.old) (Self.faults self.new) result };

    /// Takes the next datagram that arrived at an actor that listens, as `receive` does. Nothing leaves.
    fn take_next(
        &mut self,
        actor: u16,
        into: &mut [u8; DATAGRAM_BYTES],
    ) -> Result<Option<usize>, Failed>
        requires { IsListening actor (Self.opened self.old) }
        ensures length { IfOk result (λ answer. IfSome answer (λ n. n ≤ DATAGRAM_BYTES)) }
        ensures ok { IfOk result (λ answer. Receives (Self.arrivals self.old actor) answer into.new
            (Self.arrivals self.new actor)) }
        ensures err { OnErr result (Self.arrivals self.new actor ≡ Self.arrivals self.old actor) }
        ensures others { (other : ℕ) → other ≢ actor →
            Self.arrivals self.new other ≡ Self.arrivals self.old other }
        ensures holds { holds self.new ≡ holds self.old }
        ensures queue { queue self.new ≡ queue self.old }
        ensures left { left self.new ≡ left self.old }
        ensures lost { lost self.new ≡ lost self.old }
        ensures sent { Self.sent self.new ≡ Self.sent self.old }
        ensures opened { Self.opened self.new ≡ Self.opened self.old }
        ensures cause { HasCause (Self.faults self.old) (Self.faults self.new) result };

    /// Gives all that waits to the links below, each frame once and in their order. What they do not send is lost.
    fn release(&mut self)
        ensures holds { holds self.new ≡ false }
        ensures queue { queue self.new ≡ [] }
        ensures given { Given (queue self.old) (left self.old) (left self.new) (lost self.old) (lost self.new) }
        ensures opened { Self.opened self.new ≡ Self.opened self.old }
        ensures arrivals { Self.arrivals self.new ≡ Self.arrivals self.old }
        ensures faults { Self.faults self.new ≡ Self.faults self.old };
}
