ghost use Rattle.std.specs.Prelude.{◌≡◌, ◌≤◌, ◌<◌, ◌↔◌, IfOk, IsErrOf, length, take};
ghost use Rattle.edge_io.specs.declared.refusal.EdgeRefusal.TheVariants as refusal;
ghost use Rattle.frame_seal.specs.LinksOver.{least_addressed, refused_after, taken};
ghost use Rattle.frame_seal.specs.Seals.{opened, receiver_of, sealed, sender_of};

use crate::key::SealKey;
use crate::limits::MIN_ADDRESSED;
use crate::number::{receiver_of, sender_of};
use edge_io::{DATAGRAM_BYTES, EdgeRefusal, Failed, Links};
use std::alloc::Global;

/// Links over links: each datagram is sealed for the receiver that it names, and each that arrives is opened for the
/// actor that it arrives at. What is not sealed for that actor arrives as an empty datagram, and is counted.
#[derive(Drop)]
pub struct SealedLinks<'n, N: Links> {
    key: SealKey,
    inner: &'n mut N,
    datagram: Vec<u8>,
    refused: u64,
    failed: u64,
}

impl<'n, N: Links> SealedLinks<'n, N> {
    /// Links over these, sealed by this key.
    pub fn new(alloc: Global, key: SealKey, inner: &'n mut N) -> SealedLinks<'n, N>
        ensures inner { result.inner.now ≡ inner.old }
        ensures same { result.inner.ghost_name ≡ inner.entry.ghost_name }
        ensures key { result.key ≡ key }
        ensures refused { result.refused ≡ 0 }
        ensures failed { result.failed ≡ 0 }
    {
        SealedLinks {
            key,
            inner,
            datagram: Vec::new(alloc),
            refused: 0,
            failed: 0,
        }
    }

    /// How many datagrams arrived that were not sealed for their actor.
    pub fn refused(&self) -> u64
        ensures { result ≡ self.now.refused }
    {
        self.refused
    }
}

/// Makes of these bytes a datagram that is sealed by the sender for the receiver that they name. It fails exactly if
/// they are too few to name one.
fn seal_datagram(key: &SealKey, bytes: &[u8], into: &mut Vec<u8>) -> Result<(), EdgeRefusal>
    ensures ok { IfOk result (λ _. into.new.items ≡
        sealed key.now (sender_of bytes.now) (receiver_of bytes.now) bytes.now) }
    ensures failed { IsErrOf result refusal.Failed ↔ (length bytes.now < least_addressed) }
{
    if bytes.len() < MIN_ADDRESSED {
        return Err(EdgeRefusal::Failed);
    }
    into.clear();
    key.seal(sender_of(bytes), receiver_of(bytes), bytes, into)?;
    Ok(())
}

/// Puts what the actor takes of these bytes at the start of the buffer, and says how long it is. Bytes that are not
/// sealed for this actor are counted.
#[tactic(auto, unfolding(crate::specs::LinksOver::taken), using(crate::proofs::LinksOver::opened_within))]
fn open_datagram(
    key: &SealKey,
    refused: &mut u64,
    actor: u16,
    bytes: &[u8],
    into: &mut [u8; DATAGRAM_BYTES],
) -> usize
    requires { length bytes.now ≤ DATAGRAM_BYTES }
    ensures count { result ≡ length (taken key.now actor bytes.now) }
    ensures frame { take result into.new ≡ taken key.now actor bytes.now }
    ensures refused { refused.new ≡ refused_after (opened key.now actor bytes.now) refused.old }
{
    let Some(frame) = key.open(actor, bytes) else {
        *refused = refused.saturating_add(1);
        return 0;
    };
    into[..frame.len()].copy_from_slice(frame);
    frame.len()
}

impl<N: Links> Links for SealedLinks<'_, N> {
    ghost use Rattle.std.specs.Prelude.{◌+◌, None, option_map};
    ghost use Rattle.frame_seal.specs.LinksOver.{taken_all, unsealed_all};

    ghost opened = { λ s. N.opened s.inner.now };

    ghost arrivals = { λ s actor. option_map (taken_all s.key actor) (N.arrivals s.inner.now actor) };

    ghost sent = { λ s. option_map (unsealed_all s.key) (N.sent s.inner.now) };

    ghost faults = { λ s. N.faults s.inner.now + s.failed };

    ghost plan = { λ s. None };

    fn listen(&mut self, actor: u16, at: &str) -> Result<(), EdgeRefusal> {
        self.inner.listen(actor, at)
    }

    fn send(&mut self, from: u16, to: &str, bytes: &[u8]) -> Result<(), EdgeRefusal> {
        match seal_datagram(&self.key, bytes, &mut self.datagram) {
            Ok(()) => self.inner.send(from, to, &self.datagram),
            Err(EdgeRefusal::OutOfMemory) => Err(EdgeRefusal::OutOfMemory),
            Err(EdgeRefusal::Failed) => {
                self.failed = self.failed.saturating_add(1);
                Err(EdgeRefusal::Failed)
            }
        }
    }

    fn receive(
        &mut self,
        actor: u16,
        into: &mut [u8; DATAGRAM_BYTES],
    ) -> Result<Option<usize>, Failed> {
        let mut datagram = [0; DATAGRAM_BYTES];
        match self.inner.receive(actor, &mut datagram)? {
            None => Ok(None),
            Some(count) => {
                let bytes = &datagram[..count];
                Ok(Some(open_datagram(&self.key, &mut self.refused, actor, bytes, into)))
            }
        }
    }
}
