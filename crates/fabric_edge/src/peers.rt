ghost use Rattle.std.specs.Prelude.{◌≡◌, IfOk, string_bytes};

use crate::outage::Outage;
use std::alloc::{AllocError, Global};
use std::io;
use std::io::ErrorKind;
use std::net::{SocketAddr, UdpSocket};

/// An address that datagrams go to: an IP address and a port. A host's name is none, since to look it up could take
/// longer than a turn.
#[derive(Drop)]
pub struct Peer {
    text: String,
    address: Option<SocketAddr>,
    pub outage: Outage,
}

impl Peer {
    fn new(alloc: Global, text: &str) -> Result<Self, AllocError>
        ensures { IfOk result (λ peer. string_bytes peer.text ≡ text.now) }
    {
        Ok(Peer {
            text: String::from_str(alloc, text)?,
            address: text.parse().ok(),
            outage: Outage::none(),
        })
    }

    /// Sends the bytes as one datagram.
    pub fn send(&self, socket: &UdpSocket, bytes: &[u8]) -> io::Result<()> {
        let Some(address) = self.address else {
            return Err(io::Error::from(ErrorKind::InvalidInput));
        };
        if socket.send_to(bytes, address)? == bytes.len() {
            Ok(())
        } else {
            Err(io::Error::from(ErrorKind::WriteZero))
        }
    }
}

/// The addresses that were sent to so far. The text of each is read once.
#[derive(Drop)]
pub struct Peers {
    alloc: Global,
    known: Vec<Peer>,
}

impl Peers {
    pub fn none(alloc: Global) -> Self {
        Peers {
            alloc,
            known: Vec::new(alloc),
        }
    }

    /// The peer at this address.
    pub fn at(&mut self, text: &str) -> Result<&mut Peer, AllocError>
        ensures { IfOk result (λ peer. string_bytes peer.now.text ≡ text.now) }
    {
        let place = match self
            .known
            .iter()
            .position(|peer| peer.text.as_str() == text)
        {
            Some(place) => place,
            None => {
                self.known.push(Peer::new(self.alloc, text)?)?;
                self.known.len() - 1
            }
        };
        Ok(&mut self.known[place])
    }
}
