ghost use Rattle.std.specs.Prelude.{◌≡◌, IfOk};

use edge_io::{DatagramBytes, SocketAddress};
use std::alloc::{AllocError, Global};

/// A frame that waits: the address to which it goes, and its bytes.
#[derive(Drop)]
pub struct Waiting {
    pub to: SocketAddress,
    pub bytes: DatagramBytes,
}

impl Waiting {
    /// A copy of these bytes, for this address.
    pub fn new(alloc: Global, to: &str, bytes: &[u8]) -> Result<Waiting, AllocError>
        ensures { IfOk result (λ w. w ≡ record { to = to.now; bytes = bytes.now }) }
    {
        let to = SocketAddress::new(String::from_str(alloc, to)?);
        let bytes = DatagramBytes::new(Vec::from_slice(alloc, bytes)?);
        Ok(Waiting { to, bytes })
    }
}
