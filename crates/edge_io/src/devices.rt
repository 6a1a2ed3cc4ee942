use crate::clock::Clock;
use crate::datagram::DATAGRAM_BYTES;
use crate::keeper::Keeper;
use crate::links::Links;
use crate::outside::Outside;
use crate::refusal::{EdgeRefusal, Failed};
use crate::sink::{Sink, write_all};

/// Four borrowed devices as one outside. Each has a lifetime of its own, so that whoever lent them sees what became of
/// each.
#[derive(Drop)]
pub struct Devices<'k, 'n, 'd, 'c, K: Sink, N: Links, D: Keeper, C: Clock> {
    pub sink: &'k mut K,
    pub links: &'n mut N,
    pub keeps: &'d mut D,
    pub clock: &'c mut C,
}

impl<'k, 'n, 'd, 'c, K: Sink, N: Links, D: Keeper, C: Clock> Outside
    for Devices<'k, 'n, 'd, 'c, K, N, D, C> {
    ghost told = { λ d. record {
      loans = record { sink = d.sink.ghost_name; links = d.links.ghost_name; keeps = d.keeps.ghost_name; clock = d.clock.ghost_name };
      held = K.held d.sink.now;
      sink_faults = K.faults d.sink.now;
      kept = D.kept d.keeps.now;
      keep_faults = D.faults d.keeps.now;
      opened = N.opened d.links.now;
      arrivals = N.arrivals d.links.now;
      sent = N.sent d.links.now;
      link_faults = N.faults d.links.now;
      readings = C.readings d.clock.now;
      last = C.last d.clock.now;
      falls = C.falls d.clock.now;
    } };

    fn listen(&mut self, actor: u16, at: &str) -> Result<(), EdgeRefusal> {
        self.links.listen(actor, at)
    }

    fn send(&mut self, from: u16, to: &str, bytes: &[u8]) -> Result<(), EdgeRefusal> {
        self.links.send(from, to, bytes)
    }

    fn receive(
        &mut self,
        actor: u16,
        into: &mut [u8; DATAGRAM_BYTES],
    ) -> Result<Option<usize>, Failed> {
        self.links.receive(actor, into)
    }

    fn records(&mut self, actor: u16) -> Result<Vec<Vec<u8>>, EdgeRefusal> {
        self.keeps.records(actor)
    }

    fn append_synced(&mut self, actor: u16, bytes: &[u8]) -> Result<(), EdgeRefusal> {
        self.keeps.append_synced(actor, bytes)
    }

    fn now(&mut self) -> u64 {
        self.clock.now()
    }

    fn write_all(&mut self, text: &[u8]) -> Result<(), EdgeRefusal> {
        write_all(self.sink, text)
    }
}
