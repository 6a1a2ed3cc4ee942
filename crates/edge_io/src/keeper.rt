ghost use Rattle.std.specs.Prelude.{◌≡◌, ◌≢◌, ◌∷◌, [], ℕ, List, Option, map, vec_items, IfOk, OnOk, OnErr, IsErr};
ghost use Rattle.std.specs.Prelude.{IsErrOf};
ghost use Rattle.edge_io.specs.Edge.{Tells, Grew, GrewOrNot, HasCauseOf};
ghost use Rattle.edge_io.specs.Plan.{Plan, FollowsPlan, FollowsPlanUnlessRefused};

use crate::refusal::EdgeRefusal;

/// Where each actor's records are kept, as the files of a folder. A record that was appended is there
/// for whoever reads the list after a crash.
pub trait Keeper {
    /// The records of each actor, oldest first, where it tells.
    ghost kept: { Self → ℕ → Option (List (List ℕ)) };

    /// How often it has failed. The count never falls.
    ghost faults: { Self → ℕ };

    /// Which of its calls fail, where it tells.
    ghost plan: { Self → Option Plan };

    /// The records of the actor, oldest first. Reading changes no list.
    fn records(&mut self, actor: u16) -> Result<Vec<Vec<u8>>, EdgeRefusal>
        ensures ok { IfOk result (λ records. Tells (kept self.old actor) (map vec_items records.items)) }
        ensures same { (any : ℕ) → kept self.new any ≡ kept self.old any }
        ensures cause { HasCauseOf EdgeRefusal.Failed (faults self.old) (faults self.new) result }
        ensures plan { FollowsPlan (plan self.old) (plan self.new) (faults self.old) (faults self.new) (IsErrOf result EdgeRefusal.Failed) };

    /// Adds a record at the end of the actor's list, and waits until it is kept for good. After a refusal
    /// the list is as before, or has the record too. The lists of other actors stay.
    fn append_synced(&mut self, actor: u16, bytes: &[u8]) -> Result<(), EdgeRefusal>
        ensures ok { OnOk result (Grew (kept self.old actor) (kept self.new actor) (bytes.now ∷ [])) }
        ensures err { OnErr result (GrewOrNot (kept self.old actor) (kept self.new actor) (bytes.now ∷ [])) }
        ensures others { (other : ℕ) → other ≢ actor → kept self.new other ≡ kept self.old other }
        ensures cause { HasCauseOf EdgeRefusal.Failed (faults self.old) (faults self.new) result }

        // A failing call may want memory too, and then lacks it.
        ensures plan { FollowsPlanUnlessRefused (plan self.old) (plan self.new) (faults self.old) (faults self.new) (IsErrOf result EdgeRefusal.Failed) (IsErr result) };
}
