ghost use Rattle.std.specs.Prelude.{◌≡◌, []};

use crate::board::PollBoard;
use crate::seats::LINKS;
use crate::watch::Watch;
use edge_io::{DATAGRAM_BYTES, EdgeRefusal, Failed, Links};
use fabric_edge::UdpLinks;
use std::alloc::Global;
use std::marker::Model;
use std::net::{Net, SocketAddr};
use std::rt::Clock;

/// The links of a served process: its UDP socket, which never waits, and for which the rest waits.
#[derive(Drop)]
pub struct ServedLinks<'a, R: Net + Clock + Eprint> {
    board: &'a PollBoard,
    inner: UdpLinks<'a, R>,
}

impl<'a, R: Net + Clock + Eprint> Model for ServedLinks<'a, R> {
    ghost use Rattle.fabric_edge.specs.Told.{ToldByLinks};

    ghost Value = { ToldByLinks };

    ghost view = { λ l. l.inner };
}

impl<'a, R: Net + Clock + Eprint> ServedLinks<'a, R> {
    /// No endpoint is open. One is bound to this address, if it is given, in place of the one at which others reach it.
    pub fn new(rt: &'a R, alloc: Global, board: &'a PollBoard, bound: Option<SocketAddr>) -> Self
        ensures { result ≡ record { opened = []; faults = 0 } }
    {
        ServedLinks {
            board,
            inner: UdpLinks::without_pace(rt, alloc, bound),
        }
    }
}

impl<R: Net + Clock + Eprint> Links for ServedLinks<'_, R> {
    ghost use Rattle.std.specs.Prelude.{None};

    ghost opened = { λ l. l.opened };

    ghost arrivals = { λ l actor. None };

    ghost sent = { λ l. None };

    ghost faults = { λ l. l.faults };

    ghost plan = { λ l. None };

    fn listen(&mut self, actor: u16, at: &str) -> Result<(), EdgeRefusal> {
        self.inner.listen(actor, at)?;
        if let Some(descriptor) = self.inner.descriptor() {
            self.board.watch(LINKS, Watch::taking(descriptor));
        }
        Ok(())
    }

    fn send(&mut self, from: u16, to: &str, bytes: &[u8]) -> Result<(), EdgeRefusal> {
        self.inner.send(from, to, bytes)
    }

    fn receive(
        &mut self,
        actor: u16,
        into: &mut [u8; DATAGRAM_BYTES],
    ) -> Result<Option<usize>, Failed> {
        self.inner.receive(actor, into)
    }
}
