// How frames leave the devices of a node that has a parent: behind their `done`, and behind the sync of their records.
ghost use Rattle.std.specs.Prelude.{◌≡◌, ◌≢◌, ◌≤◌, ◌∷◌, [], ℕ, true, false, IfOk, IfSome, OnOk, OnErr};
ghost use Rattle.edge_io.specs.Arrivals.{IsListening, Receives};
ghost use Rattle.edge_io.specs.Edge.{Grew, HasCause, HasCauseOf};
ghost use Rattle.frame_hold.specs.Kept.{held_with};
ghost use Rattle.frame_hold.specs.Promises.{LetsOut, NeverBeforeDone};
ghost use Rattle.frame_hold.specs.Waits.{frame_waits};
ghost use Rattle.group_commit.specs.Given.{Given};
ghost use Rattle.group_commit.specs.Groups.{AllKept, IsSound, NeverBeforeSync};

use crate::held_devices::HeldDevices;
use crate::parent_lines::ParentLines;
use edge_io::{Clock, DATAGRAM_BYTES, EdgeRefusal, Failed, Sink};
use group_commit::{GroupKeeper, Outgoing};

impl<
    'k,
    'h,
    'n,
    'd,
    'c,
    K: Sink,
    N: Outgoing,
    D: GroupKeeper,
    C: Clock,
    P: ParentLines,
> HeldDevices<'k, 'h, 'n, 'd, 'c, K, N, D, C, P> {
    /// Syncs what is pending, by one call, and then sends what waits for that, in its order. Says whether it went well:
    /// then all that was appended is kept for good. What waits for a `done` goes on to wait.
    pub fn settle_all(&mut self) -> bool
        ensures settled { result ≡ true → N.holds self.new.links.now.inner.now ≡ false }
        ensures kept { result ≡ true → AllKept (D.kept self.new.keeps.now) (D.appended self.new.keeps.now) }
        ensures given { result ≡ true → N.holds self.old.links.now.inner.now ≡ true →
            Given (N.queue self.old.links.now.inner.now) (N.left self.old.links.now.inner.now)
            (N.left self.new.links.now.inner.now) (N.lost self.old.links.now.inner.now)
            (N.lost self.new.links.now.inner.now) }
        ensures never { NeverBeforeSync (N.left self.old.links.now.inner.now) (N.left self.new.links.now.inner.now)
            (D.kept self.new.keeps.now) (D.appended self.new.keeps.now) }
        ensures failed { result ≡ false →
            N.left self.new.links.now.inner.now ≡ N.left self.old.links.now.inner.now }
        ensures waits { result ≡ false →
            N.queue self.new.links.now.inner.now ≡ N.queue self.old.links.now.inner.now }
        ensures ended { result ≡ false → self.new.commit.failed ≡ true }
        ensures silent { self.old.commit.failed ≡ true → result ≡ false }
        ensures sound { IsSound self.old.commit.failed (N.holds self.old.links.now.inner.now)
            (N.queue self.old.links.now.inner.now) (D.kept self.old.keeps.now) (D.appended self.old.keeps.now) →
            IsSound self.new.commit.failed (N.holds self.new.links.now.inner.now)
            (N.queue self.new.links.now.inner.now) (D.kept self.new.keeps.now) (D.appended self.new.keeps.now) }
        ensures appended { D.appended self.new.keeps.now ≡ D.appended self.old.keeps.now }
        ensures holding { self.new.links.now.holding ≡ self.old.links.now.holding }
        ensures held { self.new.links.now.held ≡ self.old.links.now.held }
        ensures opened { N.opened self.new.links.now.inner.now ≡ N.opened self.old.links.now.inner.now }
        ensures arrivals { N.arrivals self.new.links.now.inner.now ≡ N.arrivals self.old.links.now.inner.now }
        ensures faults { N.faults self.new.links.now.inner.now ≡ N.faults self.old.links.now.inner.now }
        ensures counted { self.new.commit.faults ≡ self.old.commit.faults }
        ensures same { self.new.links.ghost_name ≡ self.old.links.ghost_name }
        ensures keeps { self.new.keeps.ghost_name ≡ self.old.keeps.ghost_name }
        ensures rest { self.new ≡ record self.old {
          links = self.new.links;
          keeps = self.new.keeps;
          commit = self.new.commit;
        } }
    {
        self.links.settle(&mut self.commit, self.keeps)
    }

    /// Sends a frame that waits for nothing. Another one is kept for later, as if it were sent.
    pub fn send_or_keep(&mut self, from: u16, to: &str, bytes: &[u8]) -> Result<(), EdgeRefusal>
        requires { IsListening from (N.opened self.old.links.now.inner.now) }
        ensures passed { frame_waits self.old.links.now.holding bytes.now ≡ false → OnOk result
            (Grew (N.sent self.old.links.now.inner.now) (N.sent self.new.links.now.inner.now)
            (record { from = from; to = to.now; bytes = bytes.now } ∷ [])) }
        ensures kept { frame_waits self.old.links.now.holding bytes.now ≡ true → OnOk result
            (self.new.links.now.held
            ≡ held_with (record { from = from; to = to.now; bytes = bytes.now }) self.old.links.now.held) }
        ensures waits { frame_waits self.old.links.now.holding bytes.now ≡ true →
            self.new.links.now.inner.now ≡ self.old.links.now.inner.now }
        ensures never { NeverBeforeDone self.old.links.now.holding
            (N.sent self.old.links.now.inner.now) (N.sent self.new.links.now.inner.now) }
        ensures holding { self.new.links.now.holding ≡ self.old.links.now.holding }
        ensures opened { N.opened self.new.links.now.inner.now
            ≡ N.opened self.old.links.now.inner.now }
        ensures arrivals { (any : ℕ) → N.arrivals self.new.links.now.inner.now any
            ≡ N.arrivals self.old.links.now.inner.now any }
        ensures cause { HasCauseOf EdgeRefusal.Failed (N.faults self.old.links.now.inner.now)
            (N.faults self.new.links.now.inner.now) result }
        ensures holds { N.holds self.new.links.now.inner.now ≡ N.holds self.old.links.now.inner.now }
        ensures queue { N.holds self.old.links.now.inner.now ≡ false →
            N.queue self.new.links.now.inner.now ≡ N.queue self.old.links.now.inner.now }
        ensures left { N.holds self.old.links.now.inner.now ≡ true →
            N.left self.new.links.now.inner.now ≡ N.left self.old.links.now.inner.now }
        ensures same { self.new.links.ghost_name ≡ self.old.links.ghost_name }
        ensures rest { self.new ≡ record self.old {
          links = self.new.links;
        } }
    {
        self.links.pass_or_keep(from, to, bytes)
    }

    /// Sends what may leave now, and then takes the next datagram that has arrived at the actor.
    pub fn let_out_and_take(
        &mut self,
        actor: u16,
        into: &mut [u8; DATAGRAM_BYTES],
    ) -> Result<Option<usize>, Failed>
        requires { IsListening actor (N.opened self.old.links.now.inner.now) }
        ensures lets_out { LetsOut actor self.old.links.now.holding self.old.links.now.held
            self.new.links.now.held (N.sent self.old.links.now.inner.now)
            (N.sent self.new.links.now.inner.now) (N.faults self.old.links.now.inner.now)
            (N.faults self.new.links.now.inner.now) }
        ensures never { NeverBeforeDone self.old.links.now.holding
            (N.sent self.old.links.now.inner.now) (N.sent self.new.links.now.inner.now) }
        ensures holding { self.new.links.now.holding ≡ self.old.links.now.holding }
        ensures length { IfOk result (λ answer. IfSome answer (λ n. n ≤ DATAGRAM_BYTES)) }
        ensures ok { IfOk result (λ answer. Receives (N.arrivals self.old.links.now.inner.now actor) answer
            into.new (N.arrivals self.new.links.now.inner.now actor)) }
        ensures err { OnErr result (N.arrivals self.new.links.now.inner.now actor
            ≡ N.arrivals self.old.links.now.inner.now actor) }
        ensures others { (other : ℕ) → other ≢ actor → N.arrivals self.new.links.now.inner.now other
            ≡ N.arrivals self.old.links.now.inner.now other }
        ensures opened { N.opened self.new.links.now.inner.now
            ≡ N.opened self.old.links.now.inner.now }
        ensures cause { HasCause (N.faults self.old.links.now.inner.now)
            (N.faults self.new.links.now.inner.now) result }
        ensures holds { N.holds self.new.links.now.inner.now ≡ N.holds self.old.links.now.inner.now }
        ensures queue { N.holds self.old.links.now.inner.now ≡ false →
            N.queue self.new.links.now.inner.now ≡ N.queue self.old.links.now.inner.now }
        ensures left { N.holds self.old.links.now.inner.now ≡ true →
            N.left self.new.links.now.inner.now ≡ N.left self.old.links.now.inner.now }
        ensures same { self.new.links.ghost_name ≡ self.old.links.ghost_name }
        ensures rest { self.new ≡ record self.old {
          links = self.new.links;
        } }
    {
        self.links.let_out_and_take(actor, into)
    }

    /// Sends a frame as `send_or_keep` does. Where so many wait for a sync that they should leave, they do before: each
    /// of them was given to the links below by an earlier call.
    pub fn send_behind(&mut self, from: u16, to: &str, bytes: &[u8]) -> Result<(), EdgeRefusal>
        requires { IsListening from (N.opened self.old.links.now.inner.now) }
        ensures never_sync { IsSound self.old.commit.failed (N.holds self.old.links.now.inner.now)
            (N.queue self.old.links.now.inner.now) (D.kept self.old.keeps.now) (D.appended self.old.keeps.now) →
            NeverBeforeSync (N.left self.old.links.now.inner.now) (N.left self.new.links.now.inner.now)
            (D.kept self.new.keeps.now) (D.appended self.new.keeps.now) }
        ensures sound { IsSound self.old.commit.failed (N.holds self.old.links.now.inner.now)
            (N.queue self.old.links.now.inner.now) (D.kept self.old.keeps.now) (D.appended self.old.keeps.now) →
            IsSound self.new.commit.failed (N.holds self.new.links.now.inner.now)
            (N.queue self.new.links.now.inner.now) (D.kept self.new.keeps.now) (D.appended self.new.keeps.now) }
        ensures appended { D.appended self.new.keeps.now ≡ D.appended self.old.keeps.now }
        ensures counted { self.new.commit.faults ≡ self.old.commit.faults }
        ensures keeps { self.new.keeps.ghost_name ≡ self.old.keeps.ghost_name }
        ensures passed { N.full self.old.links.now.inner.now ≡ false →
            frame_waits self.old.links.now.holding bytes.now ≡ false → OnOk result
            (Grew (N.sent self.old.links.now.inner.now) (N.sent self.new.links.now.inner.now)
            (record { from = from; to = to.now; bytes = bytes.now } ∷ [])) }
        ensures waits { N.full self.old.links.now.inner.now ≡ false →
            frame_waits self.old.links.now.holding bytes.now ≡ true →
            self.new.links.now.inner.now ≡ self.old.links.now.inner.now }
        ensures never_done { N.full self.old.links.now.inner.now ≡ false →
            NeverBeforeDone self.old.links.now.holding (N.sent self.old.links.now.inner.now)
            (N.sent self.new.links.now.inner.now) }
        ensures kept { frame_waits self.old.links.now.holding bytes.now ≡ true → OnOk result
            (self.new.links.now.held
            ≡ held_with (record { from = from; to = to.now; bytes = bytes.now }) self.old.links.now.held) }
        ensures holding { self.new.links.now.holding ≡ self.old.links.now.holding }
        ensures opened { N.opened self.new.links.now.inner.now
            ≡ N.opened self.old.links.now.inner.now }
        ensures arrivals { (any : ℕ) → N.arrivals self.new.links.now.inner.now any
            ≡ N.arrivals self.old.links.now.inner.now any }
        ensures cause { HasCauseOf EdgeRefusal.Failed (N.faults self.old.links.now.inner.now)
            (N.faults self.new.links.now.inner.now) result }
        ensures same { self.new.links.ghost_name ≡ self.old.links.ghost_name }
        ensures rest { self.new ≡ record self.old {
          links = self.new.links;
          keeps = self.new.keeps;
          commit = self.new.commit;
        } }
    {
        if self.links.is_full() {
            self.settle_all();
        }
        self.send_or_keep(from, to, bytes)
    }

    /// Takes the next datagram as `let_out_and_take` does. Where so many frames wait for a sync that they should leave,
    /// they do before.
    pub fn take_behind(
        &mut self,
        actor: u16,
        into: &mut [u8; DATAGRAM_BYTES],
    ) -> Result<Option<usize>, Failed>
        requires { IsListening actor (N.opened self.old.links.now.inner.now) }
        ensures never_sync { IsSound self.old.commit.failed (N.holds self.old.links.now.inner.now)
            (N.queue self.old.links.now.inner.now) (D.kept self.old.keeps.now) (D.appended self.old.keeps.now) →
            NeverBeforeSync (N.left self.old.links.now.inner.now) (N.left self.new.links.now.inner.now)
            (D.kept self.new.keeps.now) (D.appended self.new.keeps.now) }
        ensures sound { IsSound self.old.commit.failed (N.holds self.old.links.now.inner.now)
            (N.queue self.old.links.now.inner.now) (D.kept self.old.keeps.now) (D.appended self.old.keeps.now) →
            IsSound self.new.commit.failed (N.holds self.new.links.now.inner.now)
            (N.queue self.new.links.now.inner.now) (D.kept self.new.keeps.now) (D.appended self.new.keeps.now) }
        ensures appended { D.appended self.new.keeps.now ≡ D.appended self.old.keeps.now }
        ensures counted { self.new.commit.faults ≡ self.old.commit.faults }
        ensures keeps { self.new.keeps.ghost_name ≡ self.old.keeps.ghost_name }
        ensures lets_out { N.full self.old.links.now.inner.now ≡ false →
            LetsOut actor self.old.links.now.holding self.old.links.now.held self.new.links.now.held
            (N.sent self.old.links.now.inner.now) (N.sent self.new.links.now.inner.now)
            (N.faults self.old.links.now.inner.now) (N.faults self.new.links.now.inner.now) }
        ensures never_done { N.full self.old.links.now.inner.now ≡ false →
            NeverBeforeDone self.old.links.now.holding (N.sent self.old.links.now.inner.now)
            (N.sent self.new.links.now.inner.now) }
        ensures holding { self.new.links.now.holding ≡ self.old.links.now.holding }
        ensures length { IfOk result (λ answer. IfSome answer (λ n. n ≤ DATAGRAM_BYTES)) }
        ensures ok { IfOk result (λ answer. Receives (N.arrivals self.old.links.now.inner.now actor) answer
            into.new (N.arrivals self.new.links.now.inner.now actor)) }
        ensures err { OnErr result (N.arrivals self.new.links.now.inner.now actor
            ≡ N.arrivals self.old.links.now.inner.now actor) }
        ensures others { (other : ℕ) → other ≢ actor → N.arrivals self.new.links.now.inner.now other
            ≡ N.arrivals self.old.links.now.inner.now other }
        ensures opened { N.opened self.new.links.now.inner.now
            ≡ N.opened self.old.links.now.inner.now }
        ensures cause { HasCause (N.faults self.old.links.now.inner.now)
            (N.faults self.new.links.now.inner.now) result }
        ensures same { self.new.links.ghost_name ≡ self.old.links.ghost_name }
        ensures rest { self.new ≡ record self.old {
          links = self.new.links;
          keeps = self.new.keeps;
          commit = self.new.commit;
        } }
    {
        if self.links.is_full() {
            self.settle_all();
        }
        self.let_out_and_take(actor, into)
    }
}
