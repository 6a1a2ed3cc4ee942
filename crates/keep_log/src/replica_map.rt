ghost use Rattle.std.specs.Prelude.{◌≡◌, [], false, true, is_some, IsTrue, IfOk, OnOk};
ghost use Rattle.std.specs.Map.{values_of};
ghost use Rattle.fabric_lemmas.specs.Maps.{at, put};
ghost use Rattle.unit_rules.specs.Starts.{called, replica_of, without_collected};
ghost use Rattle.keep_log.specs.Items.{recorded};
ghost use Rattle.keep_log.specs.Places.{is_nil, is_row, row_call};
ghost use Rattle.keep_log.specs.Spellings.{is_sound};
ghost use Rattle.keep_log.specs.Taking.{Takes};

use crate::item::Item;
use crate::not_taken::NotTaken;
use crate::rows::take_row;
use fabric_terms::OutOfMemory;
use replica_core::Replica;
use std::alloc::Global;
use std::collections::BTreeMap;
use std::marker::Model;

/// The replicas of a node while its records are read. Contracts see the map from partitions, as the list that rises by
/// partition.
#[derive(Drop)]
pub struct ReplicaMap {
    alloc: Global,
    map: BTreeMap<u16, Replica>,
}

impl Model for ReplicaMap {
    ghost use Rattle.std.specs.Prelude.{◌≡◌, List, ℕ, true};
    ghost use Rattle.fabric_lemmas.specs.Maps.{rises};
    ghost use Rattle.replica_core.specs.Replicas.{Replica};

    ghost Value = { List (ℕ × Replica) };

    ghost view = { λ a. a.map.entries };

    ghost invariant = { λ a. rises a.map.entries ≡ true };
}

impl ReplicaMap {
    /// No replicas.
    pub fn new(alloc: Global) -> Self
        ensures { result ≡ [] }
    {
        ReplicaMap {
            alloc,
            map: BTreeMap::new(alloc),
        }
    }

    pub fn is_empty(&self) -> bool
        ensures { result ≡ is_nil self.now }
    {
        self.map.len() == 0
    }

    /// Gives a partition this replica.
    fn enter(&mut self, partition: u16, replica: Replica) -> Result<(), OutOfMemory>
        ensures { OnOk result (self.new ≡ put partition replica self.old) }
    {
        self.map.insert(partition, replica)?;
        Ok(())
    }

    /// Takes a record of the replica that the partition has, if it stands in its place.
    fn take_standing(&mut self, partition: u16, item: Item<'_>) -> Result<(), NotTaken>
        requires sound { IsTrue (is_sound (recorded item)) }
        requires there { is_some (at partition self.old) ≡ true }
        ensures { Takes (is_row (recorded item.entry) (replica_of partition self.old))
            (called partition (row_call (recorded item.entry)) self.old) self.new result }
    {
        match self.map.get_mut(&partition) {
            Some(replica) => take_row(replica, item),
            None => unreachable!(),
        }
    }

    /// Takes the first record of a partition's replica, if it stands in its place. Only then the partition is entered.
    fn take_first(&mut self, partition: u16, item: Item<'_>) -> Result<(), NotTaken>
        requires sound { IsTrue (is_sound (recorded item)) }
        requires none { is_some (at partition self.old) ≡ false }
        ensures { Takes (is_row (recorded item.entry) (replica_of partition self.old))
            (called partition (row_call (recorded item.entry)) self.old) self.new result }
    {
        let mut replica = Replica::new(self.alloc, partition);
        take_row(&mut replica, item)?;
        self.enter(partition, replica)?;
        Ok(())
    }

    /// Takes a record of the partition's replica, if it stands in its place.
    pub fn take(&mut self, partition: u16, item: Item<'_>) -> Result<(), NotTaken>
        requires { IsTrue (is_sound (recorded item)) }
        ensures { Takes (is_row (recorded item.entry) (replica_of partition self.old))
            (called partition (row_call (recorded item.entry)) self.old) self.new result }
    {
        if self.map.contains_key(&partition) {
            self.take_standing(partition, item)
        } else {
            self.take_first(partition, item)
        }
    }

    /// A boot ends every collection.
    pub fn drop_collected(&mut self)
        ensures { self.new ≡ without_collected self.old }
    {
        self.map.retain(|_, replica| {
            replica.drop_collected();
            true
        });
    }

    /// The replicas, rising by partition.
    pub fn into_vec(self) -> Result<Vec<Replica>, OutOfMemory>
        ensures { IfOk result (λ replicas. replicas.items ≡ values_of self) }
    {
        let mut replicas = Vec::new(self.alloc);
        for replica in self.map.into_values() {
            replicas.push(replica)?;
        }
        Ok(replicas)
    }
}
