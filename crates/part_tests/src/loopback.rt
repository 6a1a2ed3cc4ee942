// The machine's network, whose standard error is noted.
use crate::notes::Notes;
use std::fmt::Display;
use std::io;
use std::net::{Net, SocketAddr, TcpListener, TcpStream, UdpSocket};
use std::rt::Clock;
use std::time::Duration;

#[derive(Drop)]
pub struct Loopback<'a> {
    pub rt: &'a HostRuntime,
    pub notes: &'a Notes,
    /// Where it is there, each socket takes datagrams from this peer alone, and is refused where the peer is gone.
    pub peer: Option<SocketAddr>,
}

impl Net for Loopback<'_> {
    type Stream = TcpStream;

    type Listener = TcpListener;

    fn bind(&self, addr: SocketAddr) -> io::Result<TcpListener> {
        Net::bind(self.rt, addr)
    }

    fn connect(&self, addr: SocketAddr) -> io::Result<TcpStream> {
        Net::connect(self.rt, addr)
    }

    fn bind_udp(&self, addr: SocketAddr) -> io::Result<UdpSocket> {
        let socket = self.rt.bind_udp(addr)?;
        if let Some(peer) = self.peer {
            socket.connect(peer)?;
        }
        Ok(socket)
    }
}

impl Clock for Loopback<'_> {
    fn monotonic(&self) -> io::Result<Duration> {
        self.rt.monotonic()
    }

    fn since_1970(&self) -> io::Result<Duration> {
        self.rt.since_1970()
    }

    fn sleep(&self, duration: Duration) {
        self.rt.sleep(duration);
    }
}

impl Eprint for Loopback<'_> {
    fn eprint<D: Display + Drop>(&self, value: D) -> io::Result<()> {
        self.notes.add(value)
    }

    fn eprintln<D: Display + Drop>(&self, value: D) -> io::Result<()> {
        self.notes.add(value)
    }
}
