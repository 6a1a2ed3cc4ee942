ghost use Rattle.std.specs.Prelude.{◌≡◌, ◌≢◌, ◌≤◌, ◌∷◌, [], ℕ, true, false, map, vec_items, IfOk, OnOk, OnErr};
ghost use Rattle.edge_io.specs.Edge.{Grew, GrewOrNot, HasCauseOf, HasRisen, Tells};
ghost use Rattle.group_commit.specs.Given.{Given};
ghost use Rattle.group_commit.specs.Groups.{AllKept, IsSound, NeverBeforeSync};

use crate::keeper::GroupKeeper;
use crate::outgoing::Outgoing;
use crate::risen::risen;
use edge_io::EdgeRefusal;

/// How the syncs of a process stand: whether one has failed, or a record was not appended, so that nothing leaves any
/// more; and how many calls were answered so.
#[derive(Drop)]
pub struct Commit {
    failed: bool,
    faults: u64,
}

impl Commit {
    /// Nothing has failed.
    pub fn new() -> Commit
        ensures { result ≡ record { failed = false; faults = 0 } }
    {
        Commit {
            failed: false,
            faults: 0,
        }
    }

    /// A call is answered so; a failure is counted.
    fn refuse(&mut self, error: EdgeRefusal) -> EdgeRefusal
        ensures same { result ≡ error }
        ensures later { self.old.faults ≤ self.new.faults }
        ensures risen { error ≡ EdgeRefusal.Failed → HasRisen self.old.faults self.new.faults }
        ensures failed { self.new.failed ≡ self.old.failed }
    {
        match error {
            EdgeRefusal::Failed => {
                self.faults = risen(self.faults);
                EdgeRefusal::Failed
            }
            EdgeRefusal::OutOfMemory => EdgeRefusal::OutOfMemory,
        }
    }

    /// The records of an actor, with those that are pending. After a failure nobody knows them.
    pub fn records<D: GroupKeeper>(
        &mut self,
        keeps: &mut D,
        actor: u16,
    ) -> Result<Vec<Vec<u8>>, EdgeRefusal>
        ensures ok { IfOk result (λ records. Tells (D.appended keeps.old actor) (map vec_items records.items)) }
        ensures appended { (any : ℕ) → D.appended keeps.new any ≡ D.appended keeps.old any }
        ensures kept { (any : ℕ) → D.kept keeps.new any ≡ D.kept keeps.old any }
        ensures cause { HasCauseOf EdgeRefusal.Failed self.old.faults self.new.faults result }
        ensures failed { self.new.failed ≡ self.old.failed }
    {
        if self.failed {
            return Err(self.refuse(EdgeRefusal::Failed));
        }
        match keeps.records(actor) {
            Ok(records) => Ok(records),
            Err(error) => Err(self.refuse(error)),
        }
    }

    /// Adds a record of an actor, and does not wait until it is kept: from now on frames wait. After a failure it adds
    /// none.
    pub fn append<D: GroupKeeper, L: Outgoing>(
        &mut self,
        keeps: &mut D,
        links: &mut L,
        actor: u16,
        bytes: &[u8],
    ) -> Result<(), EdgeRefusal>
        ensures ok { OnOk result (Grew (D.appended keeps.old actor) (D.appended keeps.new actor) (bytes.now ∷ [])) }
        ensures err { OnErr result
            (GrewOrNot (D.appended keeps.old actor) (D.appended keeps.new actor) (bytes.now ∷ [])) }
        ensures others { (other : ℕ) → other ≢ actor → D.appended keeps.new other ≡ D.appended keeps.old other }
        ensures kept { (any : ℕ) → D.kept keeps.new any ≡ D.kept keeps.old any }
        ensures cause { HasCauseOf EdgeRefusal.Failed self.old.faults self.new.faults result }
        ensures holds { L.holds links.new ≡ true }
        ensures queue { L.queue links.new ≡ L.queue links.old }
        ensures left { L.left links.new ≡ L.left links.old }
        ensures opened { L.opened links.new ≡ L.opened links.old }
        ensures arrivals { L.arrivals links.new ≡ L.arrivals links.old }
        ensures faults { L.faults links.new ≡ L.faults links.old }
        ensures failed { OnErr result (self.new.failed ≡ true) }
        ensures went_well { OnOk result (self.old.failed ≡ false) }
        ensures sound { IsSound self.new.failed (L.holds links.new) (L.queue links.new) (D.kept keeps.new)
            (D.appended keeps.new) }
    {
        links.hold_back();
        if self.failed {
            return Err(self.refuse(EdgeRefusal::Failed));
        }
        match keeps.append(actor, bytes) {
            Ok(()) => Ok(()),
            Err(error) => {
                self.failed = true;
                Err(self.refuse(error))
            }
        }
    }

    /// Syncs what is pending, by one call, and then sends what waits. Says whether it went well: then all that was
    /// appended is kept for good, and nothing waits. Where it did not, what waits goes on to wait, now and after each
    /// later call.
    pub fn settle<D: GroupKeeper, L: Outgoing>(&mut self, keeps: &mut D, links: &mut L) -> bool
        ensures settled { result ≡ true → L.holds links.new ≡ false }
        ensures kept { result ≡ true → AllKept (D.kept keeps.new) (D.appended keeps.new) }
        ensures given { result ≡ true → L.holds links.old ≡ true → Given (L.queue links.old) (L.left links.old)
            (L.left links.new) (L.lost links.old) (L.lost links.new) }
        ensures idle { L.holds links.old ≡ false → L.left links.new ≡ L.left links.old }
        ensures failed { result ≡ false → L.left links.new ≡ L.left links.old }
        ensures waits { result ≡ false → L.queue links.new ≡ L.queue links.old }
        ensures ended { result ≡ false → self.new.failed ≡ true }
        ensures silent { self.old.failed ≡ true → result ≡ false }
        ensures appended { D.appended keeps.new ≡ D.appended keeps.old }
        ensures never { NeverBeforeSync (L.left links.old) (L.left links.new) (D.kept keeps.new)
            (D.appended keeps.new) }
        ensures sound { IsSound self.old.failed (L.holds links.old) (L.queue links.old) (D.kept keeps.old)
            (D.appended keeps.old) → IsSound self.new.failed (L.holds links.new) (L.queue links.new)
            (D.kept keeps.new) (D.appended keeps.new) }
        ensures opened { L.opened links.new ≡ L.opened links.old }
        ensures arrivals { L.arrivals links.new ≡ L.arrivals links.old }
        ensures faults { L.faults links.new ≡ L.faults links.old }
        ensures counted { self.new.faults ≡ self.old.faults }
    {
        if self.failed {
            return false;
        }
        if keeps.sync().is_err() {
            links.hold_back();
            self.failed = true;
            return false;
        }
        if links.is_holding() {
            links.release();
        }
        true
    }
}
