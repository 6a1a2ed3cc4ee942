ghost use Rattle.std.specs.Prelude.{◌≡◌, ℕ, ◌++◌, ◌≤◌, ◌&&◌, ◌==◌, [], length, take, true, false, OnOk, OnErr};
ghost use Rattle.write_safety.specs.Books.{Agree, Commits, entries_of, logs_rise};
ghost use Rattle.write_safety.specs.Lines.{kept_lines};
ghost use Rattle.write_safety.specs.Places.{Finds, IsGap, Parts};

use crate::kept::KeptLog;
use crate::lines::print_logs;
use fabric_terms::OutOfMemory;
use replica_core::Entry;
use ring_points::Epoch;
use std::alloc::Global;
use std::marker::Model;

/// The committed entries of every partition under each data loss number. Contracts see it as the list of what is kept
/// of each, which rises by partition and data loss number.
#[derive(Drop)]
pub struct WriteBook {
    alloc: Global,
    logs: Vec<KeptLog>,
}

impl Model for WriteBook {
    ghost use Rattle.std.specs.Prelude.{List, IsTrue};
    ghost use Rattle.write_safety.specs.Books.{KeptLog, logs_rise};

    ghost Value = { List KeptLog };

    ghost view = { λ a. a.logs.items };

    ghost invariant = { λ a. IsTrue (logs_rise a.logs.items) };
}

/// The first entries of a log, so many, or all where it has fewer.
fn front_of(log: &[Entry], lsn: u32) -> &[Entry]
    ensures { result.now ≡ take lsn log.now }
{
    if (lsn as usize) < log.len() {
        &log[..lsn as usize]
    } else {
        log
    }
}

impl WriteBook {
    /// Nothing is committed yet. The book grows by this allocator.
    pub fn new(alloc: Global) -> WriteBook
        ensures { result ≡ [] }
    {
        WriteBook {
            alloc,
            logs: Vec::new(alloc),
        }
    }

    /// How many come before what is kept of this partition and data loss number.
    fn parted(&self, partition: u16, data_loss: u32) -> usize
        ensures { Parts partition data_loss self.now result }
    {
        self.logs
            .partition_point(|log| log.comes_before(partition, data_loss))
    }

    /// The place of what is kept of this partition and data loss number, or as an error the place where it would stand.
    fn find(&self, partition: u16, data_loss: u32) -> Result<usize, usize>
        ensures { Finds partition data_loss self.now result }
    {
        let place = self.parted(partition, data_loss);
        if place < self.logs.len() && self.logs[place].is_of(partition, data_loss) {
            Ok(place)
        } else {
            Err(place)
        }
    }

    /// The first entries of a log, so many, are committed in this epoch. The longer of them and of what is kept of the
    /// partition and the epoch's data loss number is kept from then on; the two agree up to the shorter one's end. It
    /// is an error where memory is short, and then nothing is changed.
    pub fn commit(
        &mut self,
        partition: u16,
        epoch: Epoch,
        lsn: u32,
        log: &[Entry],
    ) -> Result<(), OutOfMemory>
        requires within { lsn ≤ length log.now }
        requires agree { Agree (take lsn log.now) (entries_of partition epoch.data_loss self.old) }
        ensures ok { OnOk result (Commits partition epoch.data_loss (take lsn log.now) self.old self.new) }
        ensures refused { OnErr result (self.new ≡ self.old) }
    {
        self.offer(partition, epoch, lsn, log)
    }

    /// The same for a caller that knows of no agreement: what `commit` promises holds where the two agree. What is kept
    /// of other partitions and data loss numbers stays in any case.
    pub fn offer(
        &mut self,
        partition: u16,
        epoch: Epoch,
        lsn: u32,
        log: &[Entry],
    ) -> Result<(), OutOfMemory>
        ensures ok { Agree (take lsn log.now) (entries_of partition epoch.data_loss self.old) →
            OnOk result (Commits partition epoch.data_loss (take lsn log.now) self.old self.new) }
        ensures others { (p d : ℕ) → (p == partition && d == epoch.data_loss) ≡ false →
            entries_of p d self.new ≡ entries_of p d self.old }
        ensures refused { OnErr result (self.new ≡ self.old) }
    {
        let committed = front_of(log, lsn);
        match self.find(partition, epoch.data_loss) {
            Ok(place) => self.logs[place].lengthen(self.alloc, committed),
            Err(place) => self.begin(place, partition, epoch.data_loss, committed),
        }
    }

    /// Begins to keep what is committed of a partition and data loss number, at the place where it would stand.
    fn begin(
        &mut self,
        place: usize,
        partition: u16,
        data_loss: u32,
        committed: &[Entry],
    ) -> Result<(), OutOfMemory>
        requires { IsGap partition data_loss self.old place }
        ensures ok { OnOk result (Commits partition data_loss committed.now self.old self.new) }
        ensures refused { OnErr result (self.new ≡ self.old) }
    {
        let begun = KeptLog::of_entries(self.alloc, partition, data_loss, committed)?;
        self.logs.insert(place, begun)?;
        Ok(())
    }

    /// What is kept of a partition and a data loss number, by number from 1: nothing where nothing was committed.
    pub fn list(&self, partition: u16, data_loss: u32) -> &[Entry]
        ensures { result.now ≡ entries_of partition data_loss self.now }
    {
        match self.find(partition, data_loss) {
            Ok(place) => self.logs[place].entries(),
            Err(_) => &[],
        }
    }

    /// Appends a line for each entry that is kept, rising by partition, data loss number and number. It is an error
    /// where memory is short, and then nothing is appended.
    pub fn print(&self, into: &mut Vec<u8>) -> Result<(), OutOfMemory>
        ensures ok { OnOk result (into.new.items ≡ into.old.items ++ kept_lines self.now) }
        ensures refused { OnErr result (into.new.items ≡ into.old.items) }
        ensures rising { logs_rise self.now ≡ true }
    {
        print_logs(&self.logs, into)
    }
}
