ghost use Rattle.std.specs.Prelude.{◌≡◌};

use crate::frames::names_length;
use edge_io::{DATAGRAM_BYTES, EdgeRefusal, Failed, Links};

/// Links over links: a Hello or an Offer with a length arrives as an empty datagram, which is no frame. The others are
/// as they are.
#[derive(Drop)]
pub struct OneLengthLinks<'n, N: Links> {
    inner: &'n mut N,
}

impl<'n, N: Links> OneLengthLinks<'n, N> {
    /// Links over these.
    pub fn new(inner: &'n mut N) -> OneLengthLinks<'n, N>
        ensures inner { result.inner.now ≡ inner.old }
        ensures same { result.inner.ghost_name ≡ inner.entry.ghost_name }
    {
        OneLengthLinks { inner }
    }
}

impl<N: Links> Links for OneLengthLinks<'_, N> {
    ghost use Rattle.std.specs.Prelude.{option_map};
    ghost use Rattle.frame_hold.specs.OneLength.{heard_all};

    ghost opened = { λ l. N.opened l.inner.now };

    ghost arrivals = { λ l actor. option_map heard_all (N.arrivals l.inner.now actor) };

    ghost sent = { λ l. N.sent l.inner.now };

    ghost faults = { λ l. N.faults l.inner.now };

    ghost plan = { λ l. N.plan l.inner.now };

    fn listen(&mut self, actor: u16, at: &str) -> Result<(), EdgeRefusal> {
        self.inner.listen(actor, at)
    }

    fn send(&mut self, from: u16, to: &str, bytes: &[u8]) -> Result<(), EdgeRefusal> {
        self.inner.send(from, to, bytes)
    }

    fn receive(
        &mut self,
        actor: u16,
        into: &mut [u8; DATAGRAM_BYTES],
    ) -> Result<Option<usize>, Failed> {
        match self.inner.receive(actor, into)? {
            None => Ok(None),
            Some(count) => {
                if names_length(&into[..count]) {
                    Ok(Some(0))
                } else {
                    Ok(Some(count))
                }
            }
        }
    }
}
