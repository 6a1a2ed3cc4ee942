ghost use Rattle.std.specs.Prelude.{◌≡◌, ◌==◌, ◌<◌, ◌≤◌, [], length, map, position, IfOk, IfSome};
ghost use Rattle.edge_io.specs.Arrivals.{IsListening};

use crate::failures::Failures;
use crate::outage::Outage;
use crate::pace::{MAX_RESTS, Pace};
use crate::peers::Peers;
use edge_io::{DATAGRAM_BYTES, EdgeRefusal, Endpoint, Failed, Links, SocketAddress};
use std::alloc::{AllocError, Global};
use std::io;
use std::io::ErrorKind;
use std::marker::Model;
use std::net::{Net, SocketAddr, UdpSocket};
use std::os::fd::{AsRawFd, RawFd};
use std::rt::Clock;

/// An endpoint, and the socket that is bound to it.
#[derive(Drop)]
struct OpenSocket {
    endpoint: Endpoint,
    socket: UdpSocket,
    outage: Outage,
}

impl OpenSocket {
    /// Says on standard error that a receive failed, where no other did since the last datagram came.
    fn note<R: Eprint>(&mut self, rt: &R, found: &io::Result<Option<usize>>)
        ensures { self.new.endpoint ≡ self.old.endpoint }
    {
        match found {
            Ok(None) => {}
            Ok(Some(_)) => self.outage.ends(),
            Err(error) => {
                if self.outage.begins() {
                    let at = self.endpoint.at.as_str();
                    let _ = eprintln!(rt; "fabric: receiving at {at} fails: {error}");
                }
            }
        }
    }
}

/// Datagrams over UDP. An endpoint is a bound socket.
///
/// A receive of the first actor, whose endpoint was opened first, says that nothing has come only once 5 ms
/// have passed since it last said so. Meanwhile it takes what comes, within about a millisecond. That of
/// another actor answers at once. So a turn of a process lasts 5 ms, however many actors it has, unless more
/// than a turn's datagrams come; a call lasts 10 ms at most.
///
/// An empty datagram is one too. Of one that is longer than the buffer only the front is kept, which is
/// longer than any frame, so it is not taken for one.
///
/// A call that fails is said on standard error, with the address. While the same goes on to fail, it is not said again.
///
/// Links without a pace never wait: whoever has them waits for their descriptor.
#[derive(Drop)]
pub struct UdpLinks<'a, R: Net + Clock + Eprint> {
    rt: &'a R,
    alloc: Global,
    sockets: Vec<OpenSocket>,
    peers: Peers,
    pace: Option<Pace<'a, R>>,
    /// Where endpoints are bound in place of their addresses.
    bound: Option<SocketAddr>,
    failures: Failures,
}

impl<'a, R: Net + Clock + Eprint> Model for UdpLinks<'a, R> {
    ghost use Rattle.std.specs.Prelude.{map};
    ghost use Rattle.fabric_edge.specs.Told.{ToldByLinks};

    ghost Value = { ToldByLinks };

    ghost view = { λ a. record { opened = map (λ o. o.endpoint) a.sockets.items; faults = a.failures } };
}

impl<'a, R: Net + Clock + Eprint> UdpLinks<'a, R> {
    /// No endpoint is open.
    pub fn new(rt: &'a R, alloc: Global) -> Self
        ensures { result ≡ record { opened = []; faults = 0 } }
    {
        UdpLinks {
            rt,
            alloc,
            sockets: Vec::new(alloc),
            peers: Peers::none(alloc),
            pace: Some(Pace::new(rt)),
            bound: None,
            failures: Failures::none(),
        }
    }

    /// No endpoint is open, and no receive will wait. An endpoint is bound to this address, if it is given, in place of
    /// the one at which others reach it.
    pub fn without_pace(rt: &'a R, alloc: Global, bound: Option<SocketAddr>) -> Self
        ensures { result ≡ record { opened = []; faults = 0 } }
    {
        UdpLinks {
            rt,
            alloc,
            sockets: Vec::new(alloc),
            peers: Peers::none(alloc),
            pace: None,
            bound,
            failures: Failures::none(),
        }
    }

    /// The descriptor of the socket that was opened last.
    pub fn descriptor(&self) -> Option<RawFd> {
        Some(self.sockets.last()?.socket.as_raw_fd())
    }
}

/// A socket that is bound to the address, an IP address and a port, or to the one in its place. It does not wait.
fn bind<R: Net>(rt: &R, at: &str, bound: Option<SocketAddr>) -> io::Result<UdpSocket> {
    let Some(address) = bound.or(at.parse().ok()) else {
        return Err(io::Error::from(ErrorKind::InvalidInput));
    };
    let socket = UdpSocket::bind(rt, address)?;
    socket.set_nonblocking(true)?;
    Ok(socket)
}

/// Where the first socket of the actor stands.
fn place_of(sockets: &[OpenSocket], actor: u16) -> Option<usize>
    ensures { result ≡ position (λ o. o.endpoint.actor == actor) sockets.now }
{
    sockets.iter().position(|open| open.endpoint.actor == actor)
}

/// Where the socket of an actor that listens stands.
fn listening_at(sockets: &[OpenSocket], actor: u16) -> usize
    requires { IsListening actor (map (λ o. o.endpoint) sockets.now) }
    ensures { result < length sockets.now }
{
    place_of(sockets, actor).unwrap()
}

/// The next datagram of the socket; None where none is there.
fn next_datagram(socket: &UdpSocket, into: &mut [u8]) -> io::Result<Option<usize>>
    ensures { IfOk result (λ answer. IfSome answer (λ n. n ≤ length into.old)) }
{
    match socket.recv(into) {
        Ok(count) => Ok(Some(count)),
        Err(error) if is_quiet(error.kind()) => Ok(None),
        Err(error) => Err(error),
    }
}

/// The next datagram of the socket that comes before the turn is over. A socket that fails is asked again,
/// so that a broken one does not keep the machine busy.
fn awaited<R: Clock>(
    pace: &mut Pace<'_, R>,
    socket: &UdpSocket,
    into: &mut [u8],
) -> io::Result<Option<usize>>
    ensures { IfOk result (λ answer. IfSome answer (λ n. n ≤ length into.old)) }
{
    let mut found = next_datagram(socket, into);
    for _ in 0..MAX_RESTS {
        if matches!(found, Ok(Some(_))) || !pace.rests() {
            break;
        }
        found = next_datagram(socket, into);
    }
    if !matches!(found, Ok(Some(_))) {
        pace.begin();
    }
    found
}

/// Whether the error says that nothing arrived.
fn is_quiet(kind: ErrorKind) -> bool {
    matches!(
        kind,
        ErrorKind::WouldBlock | ErrorKind::TimedOut | ErrorKind::Interrupted
    )
}

/// The endpoint of an actor beside its bound socket.
fn open_at(alloc: Global, actor: u16, at: &str, socket: UdpSocket) -> Result<OpenSocket, AllocError>
    ensures { IfOk result (λ o. o.endpoint ≡ record { actor = actor; at = at.now }) }
{
    let at = SocketAddress::new(String::from_str(alloc, at)?);
    let endpoint = Endpoint { actor, at };
    Ok(OpenSocket {
        endpoint,
        socket,
        outage: Outage::none(),
    })
}

impl<R: Net + Clock + Eprint> Links for UdpLinks<'_, R> {
    ghost use Rattle.std.specs.Prelude.{None};

    ghost opened = { λ l. l.opened };

    ghost arrivals = { λ l actor. None };

    ghost sent = { λ l. None };

    ghost faults = { λ l. l.faults };

    ghost plan = { λ l. None };

    fn listen(&mut self, actor: u16, at: &str) -> Result<(), EdgeRefusal> {
        let Ok(socket) = bind(self.rt, at, self.bound) else {
            self.failures.add();
            return Err(EdgeRefusal::Failed);
        };
        self.sockets.push(open_at(self.alloc, actor, at, socket)?)?;
        Ok(())
    }

    fn send(&mut self, from: u16, to: &str, bytes: &[u8]) -> Result<(), EdgeRefusal> {
        let peer = self.peers.at(to)?;
        let open = &self.sockets[listening_at(&self.sockets, from)];
        match peer.send(&open.socket, bytes) {
            Ok(()) => {
                peer.outage.ends();
                Ok(())
            }
            Err(error) => {
                if peer.outage.begins() {
                    let _ = eprintln!(self.rt; "fabric: sending to {to} fails: {error}");
                }
                self.failures.add();
                Err(EdgeRefusal::Failed)
            }
        }
    }

    fn receive(
        &mut self,
        actor: u16,
        into: &mut [u8; DATAGRAM_BYTES],
    ) -> Result<Option<usize>, Failed> {
        let place = listening_at(&self.sockets, actor);
        let socket = &self.sockets[place].socket;
        let found = match &mut self.pace {
            Some(pace) if place == 0 => awaited(pace, socket, into),
            _ => next_datagram(socket, into),
        };
        self.sockets[place].note(self.rt, &found);
        match found {
            Ok(answer) => Ok(answer),
            Err(_) => {
                self.failures.add();
                Err(Failed)
            }
        }
    }
}
