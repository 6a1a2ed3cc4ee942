ghost use Rattle.std.specs.Prelude.{◌≡◌, ◌∷◌, ◌++◌, [], ℕ, true, false, OnOk};
ghost use Rattle.edge_io.specs.Arrivals.{IsListening};
ghost use Rattle.edge_io.specs.Edge.{Grew, HasCauseOf};
ghost use Rattle.group_commit.specs.Given.{Given};
ghost use Rattle.group_commit.specs.Groups.{AllKept, IsSound, NeverBeforeSync};

use crate::commit::Commit;
use crate::keeper::GroupKeeper;
use crate::outgoing::Outgoing;
use edge_io::{Clock, DATAGRAM_BYTES, EdgeRefusal, Failed, Outside, Sink};

/// The devices of a process that syncs the records of many steps by one call. What they tell is what is kept and opened
/// once it has settled. Of frames they tell nothing: the links below may fail to send one that has waited.
#[derive(Drop)]
pub struct GroupDevices<'k, 'n, 'd, 'c, K: Sink, L: Outgoing, D: GroupKeeper, C: Clock> {
    pub sink: &'k mut K,
    pub links: &'n mut L,
    pub keeps: &'d mut D,
    pub clock: &'c mut C,
    pub commit: Commit,
}

impl<'k, 'n, 'd, 'c, K: Sink, L: Outgoing, D: GroupKeeper, C: Clock> GroupDevices<
    'k,
    'n,
    'd,
    'c,
    K,
    L,
    D,
    C,
> {
    /// Syncs what is pending, by one call, and then sends what waits, in its order. Says whether it went well: then all
    /// that was appended is kept for good, and nothing waits.
    pub fn settle(&mut self) -> bool
        ensures settled { result ≡ true → L.holds self.new.links.now ≡ false }
        ensures given { result ≡ true → L.holds self.old.links.now ≡ true →
            Given (L.queue self.old.links.now) (L.left self.old.links.now) (L.left self.new.links.now)
            (L.lost self.old.links.now) (L.lost self.new.links.now) }
        ensures kept { result ≡ true → AllKept (D.kept self.new.keeps.now) (D.appended self.new.keeps.now) }
        ensures failed { result ≡ false → L.left self.new.links.now ≡ L.left self.old.links.now }
        ensures waits { result ≡ false → L.queue self.new.links.now ≡ L.queue self.old.links.now }
        ensures ended { result ≡ false → self.new.commit.failed ≡ true }
        ensures silent { self.old.commit.failed ≡ true → result ≡ false }
        ensures appended { D.appended self.new.keeps.now ≡ D.appended self.old.keeps.now }
        ensures never { NeverBeforeSync (L.left self.old.links.now) (L.left self.new.links.now)
            (D.kept self.new.keeps.now) (D.appended self.new.keeps.now) }
        ensures sound { IsSound self.old.commit.failed (L.holds self.old.links.now) (L.queue self.old.links.now)
            (D.kept self.old.keeps.now) (D.appended self.old.keeps.now) →
            IsSound self.new.commit.failed (L.holds self.new.links.now) (L.queue self.new.links.now)
            (D.kept self.new.keeps.now) (D.appended self.new.keeps.now) }
        ensures idle { L.holds self.old.links.now ≡ false →
            L.left self.new.links.now ≡ L.left self.old.links.now }
        ensures opened { L.opened self.new.links.now ≡ L.opened self.old.links.now }
        ensures arrivals { L.arrivals self.new.links.now ≡ L.arrivals self.old.links.now }
        ensures faults { L.faults self.new.links.now ≡ L.faults self.old.links.now }
        ensures counted { self.new.commit.faults ≡ self.old.commit.faults }
        ensures links { self.new.links.ghost_name ≡ self.old.links.ghost_name }
        ensures keeps { self.new.keeps.ghost_name ≡ self.old.keeps.ghost_name }
        ensures sink { self.new.sink ≡ self.old.sink }
        ensures clock { self.new.clock ≡ self.old.clock }
    {
        self.commit.settle(self.keeps, self.links)
    }

    /// Sends a frame, or queues it where something is pending. Where so many wait that they should leave, they do
    /// before.
    pub fn send_or_wait(&mut self, from: u16, to: &str, bytes: &[u8]) -> Result<(), EdgeRefusal>
        requires { IsListening from (L.opened self.old.links.now) }
        ensures never { IsSound self.old.commit.failed (L.holds self.old.links.now) (L.queue self.old.links.now)
            (D.kept self.old.keeps.now) (D.appended self.old.keeps.now) →
            NeverBeforeSync (L.left self.old.links.now) (L.left self.new.links.now) (D.kept self.new.keeps.now)
            (D.appended self.new.keeps.now) }
        ensures sound { IsSound self.old.commit.failed (L.holds self.old.links.now) (L.queue self.old.links.now)
            (D.kept self.old.keeps.now) (D.appended self.old.keeps.now) →
            IsSound self.new.commit.failed (L.holds self.new.links.now) (L.queue self.new.links.now)
            (D.kept self.new.keeps.now) (D.appended self.new.keeps.now) }
        ensures queued { L.full self.old.links.now ≡ false → L.holds self.old.links.now ≡ true → OnOk result
            (L.queue self.new.links.now ≡ L.queue self.old.links.now
            ++ record { from = from; to = to.now; bytes = bytes.now } ∷ []) }
        ensures passed { L.full self.old.links.now ≡ false → L.holds self.old.links.now ≡ false → OnOk result
            (Grew (L.left self.old.links.now) (L.left self.new.links.now)
            (record { from = from; to = to.now; bytes = bytes.now } ∷ [])) }
        ensures appended { D.appended self.new.keeps.now ≡ D.appended self.old.keeps.now }
        ensures opened { L.opened self.new.links.now ≡ L.opened self.old.links.now }
        ensures arrivals { (any : ℕ) → L.arrivals self.new.links.now any ≡ L.arrivals self.old.links.now any }
        ensures cause { HasCauseOf EdgeRefusal.Failed (L.faults self.old.links.now) (L.faults self.new.links.now)
            result }
        ensures counted { self.new.commit.faults ≡ self.old.commit.faults }
        ensures links { self.new.links.ghost_name ≡ self.old.links.ghost_name }
        ensures keeps { self.new.keeps.ghost_name ≡ self.old.keeps.ghost_name }
        ensures sink { self.new.sink ≡ self.old.sink }
        ensures clock { self.new.clock ≡ self.old.clock }
    {
        if self.links.is_full() {
            self.settle();
        }
        self.links.pass_or_queue(from, to, bytes)
    }
}

impl<'k, 'n, 'd, 'c, K: Sink, L: Outgoing, D: GroupKeeper, C: Clock> Outside
    for GroupDevices<'k, 'n, 'd, 'c, K, L, D, C> {
    ghost use Rattle.std.specs.Prelude.{None};

    ghost told = { λ d. record {
      loans = record {
        sink = d.sink.ghost_name;
        links = d.links.ghost_name;
        keeps = d.keeps.ghost_name;
        clock = d.clock.ghost_name;
      };
      held = K.held d.sink.now;
      sink_faults = K.faults d.sink.now;
      kept = D.appended d.keeps.now;
      keep_faults = d.commit.faults;
      opened = L.opened d.links.now;
      arrivals = L.arrivals d.links.now;
      sent = None;
      link_faults = L.faults d.links.now;
      readings = C.readings d.clock.now;
      last = C.last d.clock.now;
      falls = C.falls d.clock.now;
    } };

    fn listen(&mut self, actor: u16, at: &str) -> Result<(), EdgeRefusal> {
        self.links.listen(actor, at)
    }

    fn send(&mut self, from: u16, to: &str, bytes: &[u8]) -> Result<(), EdgeRefusal> {
        self.send_or_wait(from, to, bytes)
    }

    fn receive(
        &mut self,
        actor: u16,
        into: &mut [u8; DATAGRAM_BYTES],
    ) -> Result<Option<usize>, Failed> {
        self.links.take_next(actor, into)
    }

    fn records(&mut self, actor: u16) -> Result<Vec<Vec<u8>>, EdgeRefusal> {
        self.commit.records(self.keeps, actor)
    }

    fn append_synced(&mut self, actor: u16, bytes: &[u8]) -> Result<(), EdgeRefusal> {
        self.commit.append(self.keeps, self.links, actor, bytes)
    }

    fn now(&mut self) -> u64 {
        self.clock.now()
    }

    fn write_all(&mut self, text: &[u8]) -> Result<(), EdgeRefusal> {
        edge_io::write_all(self.sink, text)
    }
}
