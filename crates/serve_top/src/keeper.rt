ghost use Rattle.std.specs.Prelude.{◌≡◌, ◌+◌, OnOk};
ghost use Rattle.edge_io.specs.Edge.{HasCauseOf};
ghost use Rattle.group_commit.specs.Groups.{AllKept};

use crate::tally::Tally;
use edge_io::{EdgeRefusal, Keeper};
use group_commit::GroupKeeper;
use service_file::Again;

/// What hears of each record of the actor that was synced.
pub trait Synced {
    /// Notes for good that the actor has begun, where that is not noted yet.
    fn note_begun(&mut self) -> Result<(), EdgeRefusal>;

    /// Notes for good that this instance may begin with the whole ring again.
    fn note_again(&mut self, again: Again) -> Result<(), EdgeRefusal>;

    /// An instance of the actor begins: this is the record that says so.
    fn tell_begin(&self, instance: u32);
}

/// How many bytes the length of a record has in its file.
const LENGTH_BYTES: u64 = 2;

/// Records that are counted. Once the first one is synced it is noted that the actor has begun, before anything rests
/// on it. It reads its records as a keeper, before the actor runs, and appends them as one that syncs many by one call.
#[derive(Drop)]
pub struct NotedKeeper<'a, K, S: Synced> {
    inner: K,
    synced: S,
    tally: &'a Tally,
    /// Whether a record was appended since the last sync.
    is_pending: bool,
    failed: u64,
}

impl<'a, K, S: Synced> NotedKeeper<'a, K, S> {
    /// The records of this keeper.
    pub fn new(inner: K, synced: S, tally: &'a Tally) -> Self {
        NotedKeeper {
            inner,
            synced,
            tally,
            is_pending: false,
            failed: 0,
        }
    }
}

impl<K, S: Synced> NotedKeeper<'_, K, S> {
    /// A record of these bytes was appended.
    fn count(&self, bytes: &[u8]) {
        self.tally
            .count_record((bytes.len() as u64).saturating_add(LENGTH_BYTES));
        if bytes.first() == Some(&SPLIT) {
            self.tally.count(|counters| counters.count_split_grant());
        }
        if let Some(instance) = instance_in(bytes) {
            self.synced.tell_begin(instance);
        }
    }

    /// Notes that the actor has begun: its records are synced.
    fn begin(&mut self) -> Result<(), EdgeRefusal>
        ensures inner { self.new.inner ≡ self.old.inner }
        ensures cause { HasCauseOf EdgeRefusal.Failed self.old.failed self.new.failed result }
    {
        match self.synced.note_begun() {
            Ok(()) => Ok(()),
            Err(EdgeRefusal::OutOfMemory) => Err(EdgeRefusal::OutOfMemory),
            Err(EdgeRefusal::Failed) => {
                self.failed = self.failed.saturating_add(1);
                Err(EdgeRefusal::Failed)
            }
        }
    }

    /// Notes that the actor has begun: its records are there already.
    pub fn note_begun(&mut self) -> Result<(), EdgeRefusal> {
        self.synced.note_begun()
    }

    /// Notes that an instance may begin with the whole ring again, before anything is recorded of it.
    pub fn note_again(&mut self, again: Again) -> Result<(), EdgeRefusal> {
        self.synced.note_again(again)
    }
}

/// The kind of the record by which an instance begins.
const BOOT: u8 = 1;

/// The kind of the record of a claim in a later round.
const SPLIT: u8 = 10;

/// The instance that begins by a record of these bytes, if it is one that begins.
fn instance_in(bytes: &[u8]) -> Option<u32> {
    match bytes {
        [BOOT, a, b, c, d] => Some(u32::from_be_bytes([*a, *b, *c, *d])),
        _ => None,
    }
}

/// The bytes that so many records take in their file.
fn bytes_of(records: &[Vec<u8>]) -> u64 {
    let mut sum = 0u64;
    for record in records {
        sum = sum
            .saturating_add(record.len() as u64)
            .saturating_add(LENGTH_BYTES);
    }
    sum
}

impl<K: Keeper, S: Synced> Keeper for NotedKeeper<'_, K, S> {
    ghost use Rattle.std.specs.Prelude.{◌+◌, None};

    ghost kept = { λ k. K.kept k.inner };

    ghost faults = { λ k. K.faults k.inner + k.failed };

    ghost plan = { λ k. None };

    fn records(&mut self, actor: u16) -> Result<Vec<Vec<u8>>, EdgeRefusal> {
        let records = self.inner.records(actor)?;
        self.tally.set_record_bytes(bytes_of(&records));
        Ok(records)
    }

    fn append_synced(&mut self, actor: u16, bytes: &[u8]) -> Result<(), EdgeRefusal> {
        self.inner.append_synced(actor, bytes)?;
        self.begin()?;
        self.count(bytes);
        Ok(())
    }
}

impl<K: GroupKeeper, S: Synced> NotedKeeper<'_, K, S> {
    /// Syncs the records, and then notes that the actor has begun, if there were any.
    fn sync_and_begin(&mut self) -> Result<(), EdgeRefusal>
        ensures ok { OnOk result (AllKept (K.kept self.new.inner) (K.appended self.new.inner)) }
        ensures appended { K.appended self.new.inner ≡ K.appended self.old.inner }
        ensures cause { HasCauseOf EdgeRefusal.Failed (K.faults self.old.inner + self.old.failed)
            (K.faults self.new.inner + self.new.failed) result }
    {
        self.inner.sync()?;
        if self.is_pending {
            self.begin()?;
        }
        self.is_pending = false;
        Ok(())
    }
}

impl<K: GroupKeeper, S: Synced> GroupKeeper for NotedKeeper<'_, K, S> {
    ghost use Rattle.std.specs.Prelude.{◌+◌};

    ghost kept = { λ k. K.kept k.inner };

    ghost appended = { λ k. K.appended k.inner };

    ghost faults = { λ k. K.faults k.inner + k.failed };

    fn records(&mut self, actor: u16) -> Result<Vec<Vec<u8>>, EdgeRefusal> {
        let records = self.inner.records(actor)?;
        self.tally.set_record_bytes(bytes_of(&records));
        Ok(records)
    }

    fn append(&mut self, actor: u16, bytes: &[u8]) -> Result<(), EdgeRefusal> {
        self.inner.append(actor, bytes)?;
        self.is_pending = true;
        self.count(bytes);
        Ok(())
    }

    fn sync(&mut self) -> Result<(), EdgeRefusal> {
        let synced = self.sync_and_begin();
        if synced.is_err() {
            self.tally.set_unkept();
        }
        synced
    }
}
