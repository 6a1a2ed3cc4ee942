ghost use Rattle.std.specs.Prelude.{◌≡◌, ◌≤◌, ◌++◌, ◌∷◌, [], map, vec_items, take, IfOk, OnOk, OnErr};
ghost use Rattle.std.specs.Bool.{OnTrue};
ghost use Rattle.edge_io.specs.Edge.{HasRisen};
ghost use Rattle.group_commit.specs.Memory.{fresh_group, of_actor, told_entry};

use crate::keeper::GroupKeeper;
use crate::risen::risen;
use edge_io::EdgeRefusal;
use std::alloc::{AllocError, Global};
use std::marker::Model;

/// Records in memory, of which a crash leaves those that were synced. It tells all but which calls fail: those of the
/// listed numbers, from 1 over appends and syncs. A failing append adds its record where the number is even; a failing
/// sync keeps nothing.
#[derive(Drop)]
pub struct MemGroupKeeper {
    alloc: Global,
    entries: Vec<(u16, Vec<u8>)>,
    synced: usize,
    calls: u64,
    fail: Vec<u64>,
    faults: u64,
    syncs: u64,
}

impl Model for MemGroupKeeper {
    ghost use Rattle.std.specs.Prelude.{◌≤◌, length, map};
    ghost use Rattle.group_commit.specs.Memory.{ToldGroup, told_entry};

    ghost Value = { ToldGroup };

    ghost view = { λ a. record {
      entries = map told_entry a.entries.items;
      synced = a.synced;
      faults = a.faults;
    } };

    ghost invariant = { λ a. a.synced ≤ length a.entries.items };
}

impl MemGroupKeeper {
    /// No record was appended. The calls of these numbers fail.
    pub fn new(alloc: Global, fail: Vec<u64>) -> Self
        ensures { result ≡ fresh_group }
    {
        MemGroupKeeper {
            alloc,
            entries: Vec::new(alloc),
            synced: 0,
            calls: 0,
            fail,
            faults: 0,
            syncs: 0,
        }
    }

    /// How many of the records are kept for good, the oldest first.
    pub fn synced(&self) -> usize
        ensures { result ≡ self.now.synced }
    {
        self.synced
    }

    /// How often there was a sync that kept something more.
    pub fn syncs(&self) -> u64 {
        self.syncs
    }

    /// Counts the next call, and says whether it is to fail.
    fn next_fails(&mut self) -> bool
        ensures entries { self.new.entries ≡ self.old.entries }
        ensures synced { self.new.synced ≡ self.old.synced }
        ensures later { self.old.faults ≤ self.new.faults }
        ensures risen { OnTrue result (HasRisen self.old.faults self.new.faults) }
    {
        self.calls = risen(self.calls);
        let fails = self.fail.contains(&self.calls);
        if fails {
            self.faults = risen(self.faults);
        }
        fails
    }

    /// Adds an entry. A refused call adds none.
    fn add(&mut self, actor: u16, bytes: &[u8]) -> Result<(), AllocError>
        ensures ok { OnOk result (self.new.entries ≡ self.old.entries ++ (actor, bytes.now) ∷ []) }
        ensures err { OnErr result (self.new.entries ≡ self.old.entries) }
        ensures synced { self.new.synced ≡ self.old.synced }
        ensures front { take self.new.synced self.new.entries ≡ take self.old.synced self.old.entries }
        ensures faults { self.new.faults ≡ self.old.faults }
    {
        let copy = Vec::from_slice(self.alloc, bytes)?;
        self.entries.push((actor, copy))?;
        Ok(())
    }
}

/// The records of an actor among these.
fn copy_of(
    alloc: Global,
    entries: &[(u16, Vec<u8>)],
    actor: u16,
) -> Result<Vec<Vec<u8>>, AllocError>
    ensures { IfOk result (λ copy. map vec_items copy.items ≡ of_actor actor (map told_entry entries.now)) }
{
    let mut copy = Vec::new(alloc);
    for entry in entries {
        if entry.0 == actor {
            copy.push(Vec::from_slice(alloc, &entry.1)?)?;
        }
    }
    Ok(copy)
}

impl GroupKeeper for MemGroupKeeper {
    ghost use Rattle.std.specs.Prelude.{Some, take};
    ghost use Rattle.group_commit.specs.Memory.{of_actor};

    ghost kept = { λ k actor. Some (of_actor actor (take k.synced k.entries)) };

    ghost appended = { λ k actor. Some (of_actor actor k.entries) };

    ghost faults = { λ k. k.faults };

    fn records(&mut self, actor: u16) -> Result<Vec<Vec<u8>>, EdgeRefusal> {
        Ok(copy_of(self.alloc, &self.entries, actor)?)
    }

    fn append(&mut self, actor: u16, bytes: &[u8]) -> Result<(), EdgeRefusal> {
        if !self.next_fails() {
            self.add(actor, bytes)?;
            return Ok(());
        }
        if self.calls % 2 == 0 {
            self.add(actor, bytes)?;
        }
        Err(EdgeRefusal::Failed)
    }

    fn sync(&mut self) -> Result<(), EdgeRefusal> {
        if self.next_fails() {
            return Err(EdgeRefusal::Failed);
        }
        if self.synced < self.entries.len() {
            self.syncs = risen(self.syncs);
        }
        self.synced = self.entries.len();
        Ok(())
    }
}
