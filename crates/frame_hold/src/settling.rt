// The links below, as whoever syncs records has them.
ghost use Rattle.std.specs.Prelude.{◌≡◌, ◌≢◌, ◌∷◌, [], ℕ, true, false, OnOk, OnErr};
ghost use Rattle.edge_io.specs.Edge.{Grew, GrewOrNot, HasCauseOf};
ghost use Rattle.group_commit.specs.Given.{Given};
ghost use Rattle.group_commit.specs.Groups.{AllKept, IsSound, NeverBeforeSync};

use crate::holding_links::HoldingLinks;
use edge_io::EdgeRefusal;
use group_commit::{Commit, GroupKeeper, Outgoing};

impl<N: Outgoing> HoldingLinks<'_, N> {
    /// Whether so many frames wait for a sync that they should leave before the next one.
    pub fn is_full(&self) -> bool
        ensures { result ≡ N.full self.now.inner.now }
    {
        self.inner.is_full()
    }

    /// Adds a record of an actor: from now on the links below hold frames back.
    pub fn append<D: GroupKeeper>(
        &mut self,
        commit: &mut Commit,
        keeps: &mut D,
        actor: u16,
        bytes: &[u8],
    ) -> Result<(), EdgeRefusal>
        ensures ok { OnOk result (Grew (D.appended keeps.old actor) (D.appended keeps.new actor) (bytes.now ∷ [])) }
        ensures err { OnErr result
            (GrewOrNot (D.appended keeps.old actor) (D.appended keeps.new actor) (bytes.now ∷ [])) }
        ensures others { (other : ℕ) → other ≢ actor → D.appended keeps.new other ≡ D.appended keeps.old other }
        ensures kept { (any : ℕ) → D.kept keeps.new any ≡ D.kept keeps.old any }
        ensures cause { HasCauseOf EdgeRefusal.Failed commit.old.faults commit.new.faults result }
        ensures holds { N.holds self.new.inner.now ≡ true }
        ensures queue { N.queue self.new.inner.now ≡ N.queue self.old.inner.now }
        ensures left { N.left self.new.inner.now ≡ N.left self.old.inner.now }
        ensures opened { N.opened self.new.inner.now ≡ N.opened self.old.inner.now }
        ensures arrivals { N.arrivals self.new.inner.now ≡ N.arrivals self.old.inner.now }
        ensures faults { N.faults self.new.inner.now ≡ N.faults self.old.inner.now }
        ensures failed { OnErr result (commit.new.failed ≡ true) }
        ensures went_well { OnOk result (commit.old.failed ≡ false) }
        ensures sound { IsSound commit.new.failed (N.holds self.new.inner.now) (N.queue self.new.inner.now)
            (D.kept keeps.new) (D.appended keeps.new) }
        ensures holding { self.new.holding ≡ self.old.holding }
        ensures held { self.new.held ≡ self.old.held }
    {
        commit.append(keeps, self.inner, actor, bytes)
    }

    /// Syncs what is pending, by one call, and then sends what waits for that. Says whether it went well: then all that
    /// was appended is kept for good. What waits for a `done` goes on to wait.
    pub fn settle<D: GroupKeeper>(&mut self, commit: &mut Commit, keeps: &mut D) -> bool
        ensures settled { result ≡ true → N.holds self.new.inner.now ≡ false }
        ensures given { result ≡ true → N.holds self.old.inner.now ≡ true →
            Given (N.queue self.old.inner.now) (N.left self.old.inner.now) (N.left self.new.inner.now)
            (N.lost self.old.inner.now) (N.lost self.new.inner.now) }
        ensures kept { result ≡ true → AllKept (D.kept keeps.new) (D.appended keeps.new) }
        ensures idle { N.holds self.old.inner.now ≡ false → N.left self.new.inner.now ≡ N.left self.old.inner.now }
        ensures failed { result ≡ false → N.left self.new.inner.now ≡ N.left self.old.inner.now }
        ensures waits { result ≡ false → N.queue self.new.inner.now ≡ N.queue self.old.inner.now }
        ensures ended { result ≡ false → commit.new.failed ≡ true }
        ensures silent { commit.old.failed ≡ true → result ≡ false }
        ensures appended { D.appended keeps.new ≡ D.appended keeps.old }
        ensures never { NeverBeforeSync (N.left self.old.inner.now) (N.left self.new.inner.now) (D.kept keeps.new)
            (D.appended keeps.new) }
        ensures sound { IsSound commit.old.failed (N.holds self.old.inner.now) (N.queue self.old.inner.now)
            (D.kept keeps.old) (D.appended keeps.old) →
            IsSound commit.new.failed (N.holds self.new.inner.now) (N.queue self.new.inner.now) (D.kept keeps.new)
            (D.appended keeps.new) }
        ensures opened { N.opened self.new.inner.now ≡ N.opened self.old.inner.now }
        ensures arrivals { N.arrivals self.new.inner.now ≡ N.arrivals self.old.inner.now }
        ensures faults { N.faults self.new.inner.now ≡ N.faults self.old.inner.now }
        ensures counted { commit.new.faults ≡ commit.old.faults }
        ensures holding { self.new.holding ≡ self.old.holding }
        ensures held { self.new.held ≡ self.old.held }
    {
        commit.settle(keeps, self.inner)
    }
}
