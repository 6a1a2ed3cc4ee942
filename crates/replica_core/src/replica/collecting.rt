// How the log of another replica is collected, entry by entry, and made the own one.
ghost use Rattle.std.specs.Prelude.{◌≡◌, ◌≤◌, false, length, Ok};
ghost use Rattle.ring_points.specs.Epochs.{is_older};
ghost use Rattle.replica_core.specs.Replicas.{settled, uncollected, collected_in, collecting, IsSound};
ghost use Rattle.replica_core.specs.Calls.{Answers, is_gap, is_collected, adopt_call, adopt_collected_call};
ghost use Rattle.replica_core.specs.Memory.{StoresIfShort};

use crate::entry::{Entry, EntryBytes};
use crate::refusal::{Done, ReplicaRefusal};
use crate::released::Released;
use crate::replica::Replica;
use ring_points::{Epoch, MAX_LOG_ENTRIES, MAX_WRITE};
use std::mem;

impl Replica {
    /// How many entries are collected in the promised epoch and not yet made the log.
    pub fn collected(&self) -> u32
        ensures count { result ≡ length self.now.collected }
        ensures sound { IsSound self.now }
    {
        self.collected.len() as u32
    }

    /// How many entries are collected for an epoch that is not below the promised one.
    fn collected_in(&self, e: Epoch) -> u32
        ensures { result ≡ length (collected_in e self.now) }
    {
        if self.promised < e {
            0
        } else {
            self.collected.len() as u32
        }
    }

    /// Whether the entry of these parts is the one that is collected for the epoch.
    fn is_collected(&self, e: Epoch, epoch: Epoch, lsn: u32, bytes: &[u8]) -> bool
        ensures { result ≡ is_collected e (record { epoch = epoch; lsn = lsn; bytes = bytes.now }) self.now }
    {
        self.promised == e
            && lsn == 1
            && match self.collected.as_slice() {
                [only] => only.has_parts(epoch, lsn, bytes),
                _ => false,
            }
    }

    /// Collects an entry of these parts: the first one begins anew.
    fn collect(
        &mut self,
        e: Epoch,
        epoch: Epoch,
        lsn: u32,
        bytes: &[u8],
    ) -> Result<(), ReplicaRefusal>
        requires not_older { is_older e self.old.promised ≡ false }
        requires next { is_gap e lsn self.old ≡ false }
        requires room { lsn ≤ MAX_LOG_ENTRIES }
        requires short { length bytes.now ≤ MAX_WRITE }
        ensures { Answers (Ok tt, collecting e (record { epoch = epoch; lsn = lsn; bytes = bytes.now }) self.old)
            self.old self.new result }
    {
        let entry = Entry {
            epoch,
            lsn,
            bytes: EntryBytes::from_slice(self.alloc, bytes)?,
        };
        if lsn == 1 {
            let mut anew = Vec::new(self.alloc);
            anew.push(entry)?;
            self.raise(e);
            let former = mem::replace(&mut self.collected, anew);
            self.released.take_in(former);
        } else {
            self.collected.push(entry)?;
            self.raise(e);
        }
        Ok(())
    }

    /// Makes what is collected the log of the promised epoch.
    fn settle(&mut self)
        ensures { self.new ≡ settled self.old.promised self.old }
    {
        let nothing = Vec::new(self.alloc);
        let log = mem::replace(&mut self.collected, nothing);
        let former = mem::replace(&mut self.log, log);
        self.released.take_in(former);
        self.at = self.promised;
    }

    /// Collects an entry of the log that is to be adopted for the epoch; the one of number `last` makes what is
    /// collected the log. It is `Older` where a greater epoch is promised; `Held` where the log is of the epoch
    /// already, or this is the one entry that is collected; else `Gap` with the number of those collected in the epoch
    /// where the entry is neither number 1, which begins anew, nor the next.
    pub fn adopt(&mut self, e: Epoch, entry: &Entry, last: u32) -> Result<Done, ReplicaRefusal>
        requires { entry.now.lsn ≤ MAX_LOG_ENTRIES }
        ensures answers { Answers (adopt_call e entry.now last self.old) self.old self.new result }
        ensures memory { StoresIfShort (adopt_call e entry.now last self.old) result }
    {
        let bytes = entry.bytes.as_slice();
        self.adopt_bytes(e, entry.epoch, entry.lsn, bytes, last)
    }

    /// `adopt` of the entry of these parts: its epoch, its number and its bytes. Only an entry that is stored is
    /// copied.
    pub fn adopt_bytes(
        &mut self,
        e: Epoch,
        epoch: Epoch,
        lsn: u32,
        bytes: &[u8],
        last: u32,
    ) -> Result<Done, ReplicaRefusal>
        requires room { lsn ≤ MAX_LOG_ENTRIES }
        requires short { length bytes.now ≤ MAX_WRITE }
        ensures answers { Answers (adopt_call e (record { epoch = epoch; lsn = lsn; bytes = bytes.now }) last self.old)
            self.old self.new result }
        ensures memory { StoresIfShort (adopt_call e (record { epoch = epoch; lsn = lsn; bytes = bytes.now })
            last self.old) result }
    {
        self.admit(e)?;
        if self.at == e {
            return Ok(Done::Held);
        }
        let count = self.collected_in(e);
        if lsn != 1 && lsn != count + 1 {
            return Err(ReplicaRefusal::Gap(count));
        }
        if lsn == last {
            self.collect(e, epoch, lsn, bytes)?;
            self.settle();
            return Ok(Done::New);
        }
        if self.is_collected(e, epoch, lsn, bytes) {
            return Ok(Done::Held);
        }
        self.collect(e, epoch, lsn, bytes)?;
        Ok(Done::New)
    }

    /// Makes what is collected in the epoch the log. It is `Older` where a greater epoch is promised; `Held` where the
    /// log is of the epoch already; else `Gap` with 0 where nothing is collected in it.
    pub fn adopt_collected(&mut self, e: Epoch) -> Result<Done, ReplicaRefusal>
        ensures { (result, self.new) ≡ adopt_collected_call e self.old }
    {
        self.admit(e)?;
        if self.at == e {
            return Ok(Done::Held);
        }
        if self.collected_in(e) == 0 {
            return Err(ReplicaRefusal::Gap(0));
        }
        self.raise(e);
        self.settle();
        Ok(Done::New)
    }

    /// Lets go of what is collected.
    pub(super) fn let_go_collected(&mut self)
        ensures { self.new ≡ uncollected self.old }
    {
        let nothing = Vec::new(self.alloc);
        let former = mem::replace(&mut self.collected, nothing);
        self.released.take_in(former);
    }

    /// Forgets what is collected. Starts do it, so it is freed at once, with all that was let go before.
    pub fn drop_collected(&mut self)
        ensures { self.new ≡ uncollected self.old }
    {
        self.collected.clear();
        self.released = Released::new(self.alloc);
    }
}
