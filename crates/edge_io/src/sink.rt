ghost use Rattle.std.specs.Prelude.{◌≡◌, ◌≤◌, ◌<◌, ℕ, List, Option, length, take, IfOk, OnOk, OnErr, IsErrOf};
ghost use Rattle.edge_io.specs.Edge.{Grew, GrewByFront, HasCauseOf};
ghost use Rattle.edge_io.specs.Plan.{Plan, FollowsPlan, FollowsPlanAll};

use crate::refusal::EdgeRefusal;

/// Where bytes go to, as standard output.
pub trait Sink {
    /// The bytes that it holds, where it tells.
    ghost held: { Self → Option (List ℕ) };

    /// How often it has failed. The count never falls.
    ghost faults: { Self → ℕ };

    /// Which of its calls fail, where it tells.
    ghost plan: { Self → Option Plan };

    /// Appends a prefix of the piece, and says how long a prefix. It is not empty unless the piece is: a
    /// device that takes nothing of a piece has failed. A refused write appends nothing.
    fn write(&mut self, piece: &[u8]) -> Result<usize, EdgeRefusal>
        ensures count { IfOk result (λ n. n ≤ length piece.now) }
        ensures some { IfOk result (λ n. 0 < length piece.now → 0 < n) }
        ensures bytes { IfOk result (λ n. Grew (held self.old) (held self.new) (take n piece.now)) }
        ensures err { OnErr result (held self.new ≡ held self.old) }
        ensures cause { HasCauseOf EdgeRefusal.Failed (faults self.old) (faults self.new) result }
        ensures plan { FollowsPlan (plan self.old) (plan self.new) (faults self.old) (faults self.new) (IsErrOf result EdgeRefusal.Failed) };
}

/// Appends the whole piece, or a prefix of it with a refusal.
pub fn write_all<K: Sink>(sink: &mut K, piece: &[u8]) -> Result<(), EdgeRefusal>
    ensures ok { OnOk result (Grew (K.held sink.old) (K.held sink.new) piece.now) }
    ensures err { OnErr result (GrewByFront (K.held sink.old) (K.held sink.new) piece.now) }
    ensures cause { HasCauseOf EdgeRefusal.Failed (K.faults sink.old) (K.faults sink.new) result }
    ensures plan { FollowsPlanAll (K.plan sink.old) (K.plan sink.new) (IsErrOf result EdgeRefusal.Failed) }
{
    let mut done = 0;
    while done < piece.len() {
        done += sink.write(&piece[done..])?;
    }
    Ok(())
}
