ghost use Rattle.std.specs.Prelude.{◌≡◌, ◌≢◌, ◌∷◌, [], ℕ, List, Option, map, vec_items, IfOk, OnOk, OnErr};
ghost use Rattle.edge_io.specs.Edge.{Tells, Grew, GrewOrNot, HasCauseOf};
ghost use Rattle.group_commit.specs.Groups.{AllKept};

use edge_io::EdgeRefusal;

/// Where each actor's records are kept, for many of them by one sync. A record that was appended is pending until the
/// next sync: whoever reads the list after a crash may find it or not.
pub trait GroupKeeper {
    /// The records of each actor that are kept for good, oldest first, where it tells.
    ghost kept: { Self → ℕ → Option (List (List ℕ)) };

    /// The records of each actor that were appended, oldest first, where it tells: those that are kept, and then those
    /// that are pending.
    ghost appended: { Self → ℕ → Option (List (List ℕ)) };

    /// How often it has failed. The count never falls.
    ghost faults: { Self → ℕ };

    /// The records of the actor, oldest first, with those that are pending. Reading changes no list.
    fn records(&mut self, actor: u16) -> Result<Vec<Vec<u8>>, EdgeRefusal>
        ensures ok { IfOk result (λ records. Tells (appended self.old actor) (map vec_items records.items)) }
        ensures appended { (any : ℕ) → appended self.new any ≡ appended self.old any }
        ensures kept { (any : ℕ) → kept self.new any ≡ kept self.old any }
        ensures cause { HasCauseOf EdgeRefusal.Failed (faults self.old) (faults self.new) result };

    /// Adds a record at the end of the actor's list, and does not wait until it is kept. After a refusal the list is as
    /// before, or has the record too. The lists of other actors stay.
    fn append(&mut self, actor: u16, bytes: &[u8]) -> Result<(), EdgeRefusal>
        ensures ok { OnOk result (Grew (appended self.old actor) (appended self.new actor) (bytes.now ∷ [])) }
        ensures err { OnErr result (GrewOrNot (appended self.old actor) (appended self.new actor) (bytes.now ∷ [])) }
        ensures others { (other : ℕ) → other ≢ actor → appended self.new other ≡ appended self.old other }
        ensures kept { (any : ℕ) → kept self.new any ≡ kept self.old any }
        ensures cause { HasCauseOf EdgeRefusal.Failed (faults self.old) (faults self.new) result };

    /// Waits until all that was appended is kept for good; not at all where nothing is pending. After a refusal nobody
    /// knows how much of it is.
    fn sync(&mut self) -> Result<(), EdgeRefusal>
        ensures ok { OnOk result (AllKept (kept self.new) (appended self.new)) }
        ensures appended { appended self.new ≡ appended self.old }
        ensures cause { HasCauseOf EdgeRefusal.Failed (faults self.old) (faults self.new) result };
}
