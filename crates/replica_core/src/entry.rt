ghost use Rattle.std.specs.Prelude.{◌≡◌, ◌≤◌, IfOk, length};
ghost use Rattle.replica_core.specs.Replicas.{same_entry};

use ring_points::{Epoch, MAX_WRITE};
use std::alloc::{AllocError, Global};
use std::marker::Model;

/// The bytes of an entry, at most 512, which contracts see as their list.
#[derive(Drop)]
pub struct EntryBytes {
    bytes: Vec<u8>,
}

impl Model for EntryBytes {
    ghost use Rattle.std.specs.Prelude.{◌≤◌, List, ℕ, length};
    ghost use Rattle.ring_points.specs.Limits.{most_write};

    ghost Value = { List ℕ };

    ghost view = { λ a. a.bytes.items };

    ghost invariant = { λ a. length a.bytes.items ≤ most_write };
}

impl EntryBytes {
    /// A copy of these bytes.
    pub fn from_slice(alloc: Global, bytes: &[u8]) -> Result<Self, AllocError>
        requires { length bytes.now ≤ MAX_WRITE }
        ensures { IfOk result (λ copy. copy ≡ bytes.now) }
    {
        Ok(EntryBytes {
            bytes: bytes.to_vec(alloc)?,
        })
    }

    pub fn as_slice(&self) -> &[u8]
        ensures bytes { result.now ≡ self.now }
        ensures short { length result.now ≤ MAX_WRITE }
    {
        self.bytes.as_slice()
    }
}

/// A write in a log: the epoch in which it was accepted, its number in the log, from 1, and its bytes.
#[derive(Drop)]
pub struct Entry {
    pub epoch: Epoch,
    pub lsn: u32,
    pub bytes: EntryBytes,
}

impl Entry {
    /// The same entry again.
    pub fn copy(&self, alloc: Global) -> Result<Entry, AllocError>
        ensures { IfOk result (λ copy. copy ≡ self.now) }
    {
        Ok(Entry {
            epoch: self.epoch,
            lsn: self.lsn,
            bytes: EntryBytes::from_slice(alloc, self.bytes.as_slice())?,
        })
    }

    /// Whether the entry has these parts.
    pub(crate) fn has_parts(&self, epoch: Epoch, lsn: u32, bytes: &[u8]) -> bool
        ensures { result ≡ same_entry (record { epoch = epoch; lsn = lsn; bytes = bytes.now }) self.now }
    {
        epoch == self.epoch && lsn == self.lsn && bytes == self.bytes.as_slice()
    }
}
