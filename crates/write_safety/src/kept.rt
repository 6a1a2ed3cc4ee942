ghost use Rattle.std.specs.Prelude.{◌≡◌, ◌++◌, length, take, IfOk, OnOk, OnErr};
ghost use Rattle.write_safety.specs.Books.{Agree, comes_before, is_of, longer, with_entries};

use fabric_terms::OutOfMemory;
use replica_core::Entry;
use std::alloc::Global;
use std::marker::Model;

/// What is committed of a partition under one data loss number: the entries, by number from 1.
#[derive(Drop)]
pub struct KeptLog {
    partition: u16,
    data_loss: u32,
    entries: Vec<Entry>,
}

impl Model for KeptLog {
    ghost use Rattle.write_safety.specs.Books.{KeptLog};

    ghost Value = { KeptLog };

    ghost view = { λ a. record { partition = a.partition; data_loss = a.data_loss; entries = a.entries.items } };
}

/// Appends copies. Where memory is short a front of them may be appended.
fn push_copies(alloc: Global, entries: &mut Vec<Entry>, more: &[Entry]) -> Result<(), OutOfMemory>
    ensures ok { OnOk result (entries.new.items ≡ entries.old.items ++ more.now) }
    ensures kept { take (length entries.old.items) entries.new.items ≡ entries.old.items }
{
    for entry in more {
        entries.push(entry.copy(alloc)?)?;
    }
    Ok(())
}

impl KeptLog {
    /// Copies of these entries. It is an error where memory is short.
    pub(crate) fn of_entries(
        alloc: Global,
        partition: u16,
        data_loss: u32,
        committed: &[Entry],
    ) -> Result<KeptLog, OutOfMemory>
        ensures { IfOk result (λ log. log
            ≡ record { partition = partition; data_loss = data_loss; entries = committed.now }) }
    {
        let mut entries = Vec::new(alloc);
        push_copies(alloc, &mut entries, committed)?;
        Ok(KeptLog {
            partition,
            data_loss,
            entries,
        })
    }

    /// The partition of which it is.
    pub(crate) fn partition(&self) -> u16
        ensures { result ≡ self.now.partition }
    {
        self.partition
    }

    /// The data loss number under which it was written.
    pub(crate) fn data_loss(&self) -> u32
        ensures { result ≡ self.now.data_loss }
    {
        self.data_loss
    }

    /// The entries, by number from 1.
    pub(crate) fn entries(&self) -> &[Entry]
        ensures { result.now ≡ self.now.entries }
    {
        self.entries.as_slice()
    }

    /// Whether it comes before what is kept of this partition and data loss number.
    pub(crate) fn comes_before(&self, partition: u16, data_loss: u32) -> bool
        ensures { result ≡ comes_before partition data_loss self.now }
    {
        self.partition < partition || (self.partition == partition && self.data_loss < data_loss)
    }

    /// Whether it is what is kept of this partition and data loss number.
    pub(crate) fn is_of(&self, partition: u16, data_loss: u32) -> bool
        ensures { result ≡ is_of partition data_loss self.now }
    {
        self.partition == partition && self.data_loss == data_loss
    }

    /// Keeps these entries where they are more than the kept ones: what is kept already stays where it is, and only the
    /// further entries are copied, so that all are kept where the two agree. It is an error where memory is short, and
    /// then nothing is changed.
    pub(crate) fn lengthen(&mut self, alloc: Global, committed: &[Entry]) -> Result<(), OutOfMemory>
        ensures ok { Agree committed.now self.old.entries →
            OnOk result (self.new ≡ with_entries (longer committed.now self.old.entries) self.old) }
        ensures partition { self.new.partition ≡ self.old.partition }
        ensures data_loss { self.new.data_loss ≡ self.old.data_loss }
        ensures refused { OnErr result (self.new ≡ self.old) }
    {
        let before = self.entries.len();
        if committed.len() <= before {
            return Ok(());
        }
        let copied = push_copies(alloc, &mut self.entries, &committed[before..]);
        if copied.is_err() {
            self.entries.truncate(before);
        }
        copied
    }
}
