ghost use Rattle.std.specs.Prelude.{◌≡◌, ◌≢◌, ℕ, length, map, take, drop};
ghost use Rattle.edge_io.specs.Arrivals.{next_arrival};
ghost use Rattle.edge_io.specs.Memory.{fresh_links, told_datagram, told_arrival, arrivals_at};

use crate::datagram::{DATAGRAM_BYTES, Datagram, DatagramBytes};
use crate::endpoint::{Endpoint, SocketAddress};
use crate::entries::place_of;
use crate::fault_plan::FaultPlan;
use crate::links::Links;
use crate::refusal::{EdgeRefusal, Failed};
use std::alloc::Global;
use std::marker::Model;

/// Links in memory: what arrives is given beforehand, and what is sent is noted. It tells all.
#[derive(Drop)]
pub struct MemLinks {
    alloc: Global,
    arrivals: Vec<(u16, Option<Vec<u8>>)>,
    sent: Vec<Datagram>,
    opened: Vec<Endpoint>,
    faults: FaultPlan,
}

impl Model for MemLinks {
    ghost use Rattle.std.specs.Prelude.{map};
    ghost use Rattle.edge_io.specs.Memory.{ToldLinks, told_arrival};

    ghost Value = { ToldLinks };

    ghost view = { λ a. record {
      arrivals = map told_arrival a.arrivals.items;
      sent = a.sent.items;
      opened = a.opened.items;
      faults = a.faults;
    } };
}

impl MemLinks {
    /// These datagrams are to arrive, each at its actor, in this order; None stands for one that is
    /// absent, so that a receive finds nothing. The calls of the listed numbers, from 1, fail.
    pub fn new(alloc: Global, arrivals: Vec<(u16, Option<Vec<u8>>)>, fail: Vec<u64>) -> Self
        ensures { result ≡ fresh_links (map told_arrival arrivals.items) fail.items }
    {
        MemLinks {
            alloc,
            arrivals,
            sent: Vec::new(alloc),
            opened: Vec::new(alloc),
            faults: FaultPlan::new(fail),
        }
    }

    /// What was sent, in order.
    pub fn sent(&self) -> &[Datagram]
        ensures { result.now ≡ self.now.sent }
    {
        &self.sent
    }

    /// The opened endpoints, in order.
    pub fn opened(&self) -> &[Endpoint]
        ensures { result.now ≡ self.now.opened }
    {
        &self.opened
    }
}

/// Takes the next arrival of the actor; None where it is absent or none is left.
fn take_next(arrivals: &mut Vec<(u16, Option<Vec<u8>>)>, actor: u16) -> Option<Vec<u8>>
    ensures next { told_datagram result ≡ next_arrival (arrivals_at actor (map told_arrival arrivals.old.items)) }
    ensures rest { arrivals_at actor (map told_arrival arrivals.new.items) ≡ drop 1
        (arrivals_at actor (map told_arrival arrivals.old.items)) }
    ensures others { (other : ℕ) → other ≢ actor →
        arrivals_at other (map told_arrival arrivals.new.items) ≡ arrivals_at other
        (map told_arrival arrivals.old.items) }
{
    let place = place_of(arrivals, actor)?;
    let (_, arrival) = arrivals.remove(place);
    arrival
}

/// Copies the bytes, as many as there is room for, to the start of the buffer, and says how many.
fn copy_front(bytes: &[u8], into: &mut [u8; DATAGRAM_BYTES]) -> usize
    ensures count { result ≡ length (take DATAGRAM_BYTES bytes.now) }
    ensures copied { take result into.new ≡ take DATAGRAM_BYTES bytes.now }
{
    let count = DATAGRAM_BYTES.min(bytes.len());
    into[..count].copy_from_slice(&bytes[..count]);
    count
}

impl Links for MemLinks {
    ghost use Rattle.std.specs.Prelude.{Some};

    ghost opened = { λ l. l.opened };

    ghost arrivals = { λ l actor. Some (arrivals_at actor l.arrivals) };

    ghost sent = { λ l. Some l.sent };

    ghost faults = { λ l. l.faults.faults };

    ghost plan = { λ l. Some l.faults.plan };

    fn listen(&mut self, actor: u16, at: &str) -> Result<(), EdgeRefusal> {
        if self.faults.next_fails() {
            return Err(EdgeRefusal::Failed);
        }
        let at = SocketAddress::new(String::from_str(self.alloc, at)?);
        self.opened.push(Endpoint { actor, at })?;
        Ok(())
    }

    fn send(&mut self, from: u16, to: &str, bytes: &[u8]) -> Result<(), EdgeRefusal> {
        if self.faults.next_fails() {
            return Err(EdgeRefusal::Failed);
        }
        let to = SocketAddress::new(String::from_str(self.alloc, to)?);
        let bytes = DatagramBytes::new(Vec::from_slice(self.alloc, bytes)?);
        self.sent.push(Datagram { from, to, bytes })?;
        Ok(())
    }

    fn receive(
        &mut self,
        actor: u16,
        into: &mut [u8; DATAGRAM_BYTES],
    ) -> Result<Option<usize>, Failed> {
        if self.faults.next_fails() {
            return Err(Failed);
        }
        match take_next(&mut self.arrivals, actor) {
            Some(bytes) => Ok(Some(copy_front(&bytes, into))),
            None => Ok(None),
        }
    }
}
