use status_page::{Counters, PartitionGauge};
use std::alloc::{AllocError, Global};
use std::cell::{Cell, RefCell};

/// What a process counts while it runs. Its devices and its policy share it: each counts what it sees.
#[derive(Drop)]
pub struct Tally {
    counters: RefCell<Counters>,
    /// Bytes of the file of records.
    record_bytes: Cell<u64>,
    /// The reading at which point 0 was last held here or found.
    managed: Cell<u64>,
    /// Of partitions whose primary the actor has been, the last entry that it reported as committed.
    committed: RefCell<Vec<PartitionGauge>>,
    connections: Cell<u64>,
    /// How many frames wait until the parent has let go.
    held_frames: Cell<u64>,
    /// Whether the line that was taken last is one of the parent.
    parent_asks: Cell<bool>,
    /// Whether the actor was told to leave.
    leaving: Cell<bool>,
    /// Whether the endpoint has failed so often that the log says so.
    deaf: Cell<bool>,
    /// Whether records could not be synced: the process ends, and says nothing more.
    unkept: Cell<bool>,
}

impl Tally {
    /// Nothing was counted.
    pub fn new(alloc: Global) -> Tally {
        Tally {
            counters: RefCell::new(Counters::new()),
            record_bytes: Cell::new(0),
            managed: Cell::new(0),
            committed: RefCell::new(Vec::new(alloc)),
            connections: Cell::new(0),
            held_frames: Cell::new(0),
            parent_asks: Cell::new(false),
            leaving: Cell::new(false),
            deaf: Cell::new(false),
            unkept: Cell::new(false),
        }
    }

    /// Counts by this.
    pub fn count<F: FnOnce(&mut Counters)>(&self, by: F)
        requires { F.IsAlwaysCallable by }
    {
        if let Ok(mut counters) = self.counters.try_borrow_mut() {
            by(&mut counters);
        }
    }

    /// Counts a record of so many bytes, with those of its length in the file.
    pub fn count_record(&self, bytes: u64) {
        self.count(|counters| counters.count_record());
        self.add_record_bytes(bytes);
    }

    /// So many bytes more are in the file of records.
    pub fn add_record_bytes(&self, bytes: u64) {
        self.record_bytes
            .set(self.record_bytes.get().saturating_add(bytes));
    }

    /// The file of records has so many bytes.
    pub fn set_record_bytes(&self, bytes: u64) {
        self.record_bytes.set(bytes);
    }

    pub fn record_bytes(&self) -> u64 {
        self.record_bytes.get()
    }

    /// Point 0 was held here or found at this reading.
    pub fn manager_seen(&self, now: u64) {
        self.managed.set(now);
    }

    /// For how many ticks point 0 was neither held here nor found.
    pub fn without_manager(&self, now: u64) -> u64 {
        now.saturating_sub(self.managed.get())
    }

    /// All entries of a partition up to this one are committed. Where memory is short, nothing is kept of it.
    pub fn committed(&self, partition: u16, last: u32) {
        let Ok(mut gauges) = self.committed.try_borrow_mut() else {
            return;
        };
        let gauge = PartitionGauge {
            partition,
            number: u64::from(last),
        };
        match gauges.iter().position(|one| one.partition == partition) {
            Some(place) => gauges[place] = gauge,
            None => {
                let _ = gauges.push(gauge);
            }
        }
    }

    /// The last committed entries of these partitions, where they are known.
    pub fn committed_of(
        &self,
        alloc: Global,
        partitions: &[u16],
    ) -> Result<Vec<PartitionGauge>, AllocError> {
        let mut found = Vec::new(alloc);
        if let Ok(gauges) = self.committed.try_borrow() {
            for gauge in gauges.iter() {
                if partitions.contains(&gauge.partition) {
                    found.push(*gauge)?;
                }
            }
        }
        Ok(found)
    }

    pub fn set_connections(&self, connections: u64) {
        self.connections.set(connections);
    }

    pub fn connections(&self) -> u64 {
        self.connections.get()
    }

    /// So many frames wait until the parent has let go.
    pub fn set_held_frames(&self, frames: u64) {
        self.held_frames.set(frames);
    }

    pub fn held_frames(&self) -> u64 {
        self.held_frames.get()
    }

    /// A line was taken, of the parent or of another client.
    pub fn set_parent_asks(&self, is_parent: bool) {
        self.parent_asks.set(is_parent);
    }

    /// Whether the line that was taken last is one of the parent.
    pub fn parent_asks(&self) -> bool {
        self.parent_asks.get()
    }

    /// The actor was told to leave.
    pub fn leave(&self) {
        self.leaving.set(true);
    }

    pub fn is_leaving(&self) -> bool {
        self.leaving.get()
    }

    /// The endpoint has failed so often that the log says so.
    pub fn set_deaf(&self) {
        self.deaf.set(true);
    }

    pub fn is_deaf(&self) -> bool {
        self.deaf.get()
    }

    /// Records could not be synced.
    pub fn set_unkept(&self) {
        self.unkept.set(true);
    }

    /// Whether records could not be synced.
    pub fn is_unkept(&self) -> bool {
        self.unkept.get()
    }

    /// What was counted.
    pub fn counters(&self) -> Counters {
        match self.counters.try_borrow() {
            Ok(counters) => copy_of(&counters),
            Err(_) => Counters::new(),
        }
    }
}

fn copy_of(from: &Counters) -> Counters {
    Counters {
        sent: from.sent,
        received: from.received,
        junk: from.junk,
        records: from.records,
        split_grants: from.split_grants,
        commands: from.commands,
        refusals: from.refusals,
        lines: from.lines,
        turns: from.turns,
        firings: from.firings,
        slow_turns: from.slow_turns,
        longest_turn: from.longest_turn,
        clients_dropped: from.clients_dropped,
        log_lines_dropped: from.log_lines_dropped,
    }
}
