ghost use Rattle.std.specs.Prelude.{◌≡◌, ◌++◌, option_map, IfOk};
ghost use Rattle.frame_seal.specs.Seals.{key_of, mac_of, opened, seal_of, sealed};

use crate::keyed_hash::{begin, block_of, end};
use crate::limits::{MAX_KEY, MIN_KEY, SEAL_BYTES};
use crate::number::sender_of;
use crate::same::is_same;
use sha2::Digest;
use std::alloc::AllocError;
use std::marker::Model;

/// What the MAC is for, so that it is never one of another protocol.
const PURPOSE: [u8; 16] = *b"fabricd-frame-01";

/// The first byte of a sealed frame.
const MARK: u8 = 0x54;

/// The version of the seal.
const VERSION: u8 = 1;

/// What a cluster seals by: the key that all its processes have, and the checksum of their configuration.
#[derive(Drop)]
pub struct SealKey {
    block: [u8; 64],
    checksum: [u8; 32],
}

impl Model for SealKey {
    ghost use Rattle.frame_seal.specs.Seals.{Key};

    ghost Value = { Key };

    ghost view = { λ k. record { block = k.block; checksum = k.checksum } };
}

impl SealKey {
    /// The seal by these bytes. None exactly if they are fewer than `MIN_KEY` or more than `MAX_KEY`.
    #[tactic(auto, unfolding(crate::specs::Seals::key_of))]
    pub fn new(key: &[u8], checksum: &[u8; 32]) -> Option<SealKey>
        ensures { result ≡ key_of key.now checksum.now }
    {
        if key.len() < MIN_KEY || key.len() > MAX_KEY {
            return None;
        }
        Some(SealKey {
            block: block_of(key),
            checksum: *checksum,
        })
    }

    /// The MAC of a frame between two actors.
    #[tactic(auto, unfolding(crate::specs::Seals::mac_of))]
    fn mac(&self, from: u16, to: u16, frame: &[u8]) -> [u8; 32]
        ensures { result ≡ mac_of self.now from to frame.now }
    {
        let mut inner = begin(&self.block);
        inner.update(PURPOSE);
        inner.update(self.checksum);
        inner.update(from.to_be_bytes());
        inner.update(to.to_be_bytes());
        inner.update(frame);
        end(&self.block, inner)
    }

    /// What stands before a frame that is sealed between two actors.
    #[tactic(auto, unfolding(crate::specs::Seals::seal_of))]
    fn seal_of(&self, from: u16, to: u16, frame: &[u8]) -> [u8; 34]
        ensures { result ≡ seal_of self.now from to frame.now }
    {
        let mut seal = [0; SEAL_BYTES];
        seal[0] = MARK;
        seal[1] = VERSION;
        seal[2..].copy_from_slice(&self.mac(from, to, frame));
        seal
    }

    /// Appends the frame, sealed by its sender for a receiver. A refused call may leave a part of it.
    #[tactic(auto, unfolding(crate::specs::Seals::sealed))]
    pub fn seal(
        &self,
        from: u16,
        to: u16,
        frame: &[u8],
        into: &mut Vec<u8>,
    ) -> Result<(), AllocError>
        ensures { IfOk result (λ _. into.new.items ≡ into.old.items ++ sealed self.now from to frame.now) }
    {
        into.extend_from_slice(&self.seal_of(from, to, frame))?;
        into.extend_from_slice(frame)
    }

    /// The frame, exactly if these bytes are sealed for this receiver by the sender that the frame names.
    #[tactic(auto, unfolding(crate::specs::Seals::opened), using(crate::proofs::Sealed::sealed_as, crate::proofs::Sealed::short_is_not))]
    pub fn open<'a>(&self, to: u16, bytes: &'a [u8]) -> Option<&'a [u8]>
        ensures { option_map (λ frame. frame.now) result ≡ opened self.now to bytes.now }
    {
        let (seal, frame) = bytes.split_first_chunk::<SEAL_BYTES>()?;
        if is_same(seal, &self.seal_of(sender_of(frame), to, frame)) {
            Some(frame)
        } else {
            None
        }
    }
}
