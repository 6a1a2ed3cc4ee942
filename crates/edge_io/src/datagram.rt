ghost use Rattle.std.specs.Prelude.{◌≡◌};

use crate::endpoint::SocketAddress;
use std::marker::Model;

/// The most bytes of a datagram that `receive` hands over. What a datagram has beyond them is lost.
pub const DATAGRAM_BYTES: usize = 1500;

/// The bytes of a datagram. Contracts see them as their list.
#[derive(Drop)]
pub struct DatagramBytes {
    bytes: Vec<u8>,
}

impl Model for DatagramBytes {
    ghost use Rattle.std.specs.Prelude.{List, ℕ};

    ghost Value = { List ℕ };

    ghost view = { λ a. a.bytes.items };
}

impl DatagramBytes {
    pub fn new(bytes: Vec<u8>) -> Self
        ensures { result ≡ bytes.items }
    {
        DatagramBytes { bytes }
    }

    pub fn as_slice(&self) -> &[u8]
        ensures { result.now ≡ self.now }
    {
        self.bytes.as_slice()
    }
}

/// What an actor sent: its bytes, and the address that they went to.
#[derive(Drop)]
pub struct Datagram {
    pub from: u16,
    pub to: SocketAddress,
    pub bytes: DatagramBytes,
}
