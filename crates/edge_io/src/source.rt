ghost use Rattle.std.specs.Prelude.{◌≡◌, ◌≤◌, ℕ, List, Option, length, IfOk, OnErr, IsErr};
ghost use Rattle.edge_io.specs.Edge.{Reads, HasCause};
ghost use Rattle.edge_io.specs.Plan.{Plan, FollowsPlan};

use crate::refusal::Failed;

/// Where bytes come from, as standard input.
pub trait Source {
    /// The bytes that are left, where it tells.
    ghost left: { Self → Option (List ℕ) };

    /// How often it has failed. The count never falls.
    ghost faults: { Self → ℕ };

    /// Which of its calls fail, where it tells.
    ghost plan: { Self → Option Plan };

    /// Takes some of the bytes that are left, at most as many as the buffer has room for, and says how
    /// many. 0 for a buffer that is not empty is the end, and comes exactly where none is left. A
    /// refused read takes none.
    fn read(&mut self, into: &mut [u8]) -> Result<usize, Failed>
        ensures count { IfOk result (λ n. n ≤ length into.old) }
        ensures bytes { IfOk result (λ n. Reads (left self.old) (left self.new) n into.new) }
        ensures err { OnErr result (left self.new ≡ left self.old) }
        ensures cause { HasCause (faults self.old) (faults self.new) result }
        ensures plan { FollowsPlan (plan self.old) (plan self.new) (faults self.old) (faults self.new) (IsErr result) };
}
