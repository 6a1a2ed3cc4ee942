// The devices of a node that has a parent, as the outside of its process.
use crate::held_devices::HeldDevices;
use crate::parent_lines::ParentLines;
use edge_io::{Clock, DATAGRAM_BYTES, EdgeRefusal, Failed, Links, Outside, Sink};
use fabric_terms::OutOfMemory;
use group_commit::{GroupKeeper, Outgoing};
use serve_turns::Handover;
use turn_members::{Deed, Member};

impl<'k, 'h, 'n, 'd, 'c, K: Sink, N: Outgoing, D: GroupKeeper, C: Clock, P: ParentLines> Outside
    for HeldDevices<'k, 'h, 'n, 'd, 'c, K, N, D, C, P> {
    ghost use Rattle.std.specs.Prelude.{None};

    ghost told = { λ d. record {
      loans = record {
        sink = d.sink.ghost_name;
        links = d.links.ghost_name;
        keeps = d.keeps.ghost_name;
        clock = d.clock.ghost_name;
      };
      held = K.held d.sink.now;
      sink_faults = K.faults d.sink.now;
      kept = D.appended d.keeps.now;
      keep_faults = d.commit.faults;
      opened = N.opened d.links.now.inner.now;
      arrivals = N.arrivals d.links.now.inner.now;
      sent = None;
      link_faults = N.faults d.links.now.inner.now;
      readings = C.readings d.clock.now;
      last = C.last d.clock.now;
      falls = C.falls d.clock.now;
    } };

    fn listen(&mut self, actor: u16, at: &str) -> Result<(), EdgeRefusal> {
        self.links.listen(actor, at)
    }

    fn send(&mut self, from: u16, to: &str, bytes: &[u8]) -> Result<(), EdgeRefusal> {
        self.send_behind(from, to, bytes)
    }

    fn receive(
        &mut self,
        actor: u16,
        into: &mut [u8; DATAGRAM_BYTES],
    ) -> Result<Option<usize>, Failed> {
        self.take_behind(actor, into)
    }

    fn records(&mut self, actor: u16) -> Result<Vec<Vec<u8>>, EdgeRefusal> {
        self.commit.records(self.keeps, actor)
    }

    fn append_synced(&mut self, actor: u16, bytes: &[u8]) -> Result<(), EdgeRefusal> {
        self.links
            .append(&mut self.commit, self.keeps, actor, bytes)
    }

    fn now(&mut self) -> u64 {
        let now = self.clock.now();
        self.last = now;
        now
    }

    fn write_all(&mut self, text: &[u8]) -> Result<(), EdgeRefusal> {
        edge_io::write_all(self.sink, text)
    }
}

impl<'k, 'h, 'n, 'd, 'c, K: Sink, N: Outgoing, D: GroupKeeper, C: Clock, P: ParentLines> Handover
    for HeldDevices<'k, 'h, 'n, 'd, 'c, K, N, D, C, P> {
    ghost synced = { λ d. D.kept d.keeps.now };

    fn gather(&mut self) {
        self.gather_lines();
    }

    fn see(&mut self, actor: &Member) {
        self.see_member(actor);
    }

    fn hand_over(&mut self, deed: &Deed, now: u64) -> Result<(), OutOfMemory> {
        self.give_up(deed, now)
    }

    fn let_go(&mut self, number: u64) {
        self.close_number(number);
    }

    fn settle(&mut self) -> bool {
        self.settle_all()
    }
}
