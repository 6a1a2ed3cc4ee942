ghost use Rattle.std.specs.Prelude.{◌≡◌, ◌≢◌, [], None, Some, Err, IsTrue, IsOk, is_some, MatchResult, IfOk};
ghost use Rattle.std.specs.Prelude.{IsOkUnless, nat_eq, ◌≤◌};
ghost use Rattle.indexmap.specs.IndexMap.{IsUnique};
ghost use Rattle.fabric_lemmas.specs.Maps.{at};
ghost use Rattle.failover_units.specs.Units.{is_full_for, unit_of, changed, created, noted, seen_at, Answers, load_of};
ghost use Rattle.failover_units.specs.Units.{known_partitions, partitions_in};

use crate::range::partitions_in;
use crate::refusal::UnitRefusal;
use crate::unit::KnownUnit;
use indexmap::IndexMap;
use ring_points::{Config, Epoch, Interval};
use std::alloc::{AllocError, Global};
use std::marker::Model;

/// How many partitions can stand.
pub const MAX_UNITS: usize = 4096;

/// The partitions that a node knows of: per partition its configuration of greatest epoch, and the
/// greatest epoch seen. Contracts see the map from partitions, as the list that rises by partition.
#[derive(Drop)]
pub struct Units {
    alloc: Global,
    table: IndexMap<u16, KnownUnit>,
}

impl Model for Units {
    ghost use Rattle.std.specs.Prelude.{◌≤◌, List, ℕ};
    ghost use Rattle.indexmap.specs.IndexMap.{index_map_len};
    ghost use Rattle.fabric_lemmas.specs.Maps.{map_of};
    ghost use Rattle.failover_units.specs.Limits.{most_units};
    ghost use Rattle.failover_units.specs.declared.unit.KnownUnit.{KnownUnit};

    ghost Value = { List (ℕ × KnownUnit) };

    ghost view = { λ a. map_of a.table.entries };

    ghost invariant = { λ a. index_map_len a.table ≤ most_units };
}

/// The partitions with a known configuration, in the order of the table.
fn known_in(alloc: Global, table: &IndexMap<u16, KnownUnit>) -> Result<Vec<u16>, AllocError>
    ensures known { IfOk result (λ known. known.items ≡ known_partitions table.now.entries) }
    ensures unique { IsUnique nat_eq table.now }
{
    let mut known = Vec::new(alloc);
    for (partition, unit) in table {
        if unit.config.is_some() {
            known.push(*partition)?;
        }
    }
    Ok(known)
}

impl Units {
    /// No partitions. The table grows by this allocator.
    pub fn new(alloc: Global) -> Self
        ensures { result ≡ [] }
    {
        Units {
            alloc,
            table: IndexMap::new(alloc),
        }
    }

    #[tactic(auto, using(fabric_lemmas::proofs::Tables::as_maps))]
    fn unit(&self, partition: u16) -> KnownUnit
        ensures { result ≡ unit_of partition self.now }
    {
        match self.table.get(&partition) {
            Some(unit) => unit.copy(),
            None => KnownUnit::nothing(),
        }
    }

    /// Whether the partition is new and finds no place, since `MAX_UNITS` stand.
    #[tactic(auto, using(fabric_lemmas::proofs::Tables::as_maps))]
    pub fn is_full_for(&self, partition: u16) -> bool
        ensures { result ≡ is_full_for partition self.now }
    {
        !self.table.contains_key(&partition) && self.table.len() >= MAX_UNITS
    }

    /// Keeps what is known of a partition, in its place where it stands already.
    #[tactic(auto, using(fabric_lemmas::proofs::Tables::as_maps))]
    fn keep(&mut self, partition: u16, unit: KnownUnit) -> Result<(), UnitRefusal>
        ensures kept { Answers (changed partition (λ _. unit) self.old) self.old self.new result }
        ensures stands { IsTrue (is_some (at partition self.old)) → IsOk result }
    {
        if !self.table.contains_key(&partition) && self.table.len() >= MAX_UNITS {
            return Err(UnitRefusal::Full);
        }
        match self.table.insert(partition, unit) {
            Ok(_) => Ok(()),
            Err(_) => Err(UnitRefusal::OutOfMemory),
        }
    }

    /// Gives a new partition its place. `Exists` comes exactly where a configuration of it is known; else
    /// `Full` exactly where it is new and `MAX_UNITS` partitions stand. For one that stands no memory is taken.
    pub fn create(&mut self, partition: u16) -> Result<(), UnitRefusal>
        ensures created { Answers (created partition self.old) self.old self.new result }
        ensures stands { IsTrue (is_some (at partition self.old)) → result ≢ Err UnitRefusal.OutOfMemory }
    {
        let unit = self.unit(partition);
        if unit.config.is_some() {
            return Err(UnitRefusal::Exists);
        }
        self.keep(partition, unit)
    }

    /// Notes a configuration: of its partition's, the one of greatest epoch stays. `Full` comes exactly
    /// where the partition is new and `MAX_UNITS` stand. For one that stands no memory is taken.
    pub fn note(&mut self, config: &Config) -> Result<(), UnitRefusal>
        ensures noted { Answers (changed config.now.partition (noted config.now) self.old) self.old self.new result }
        ensures stands { IsTrue (is_some (at config.now.partition self.old)) → IsOk result }
    {
        let unit = self.unit(config.partition).noted(config);
        self.keep(config.partition, unit)
    }

    /// Sees an epoch of a partition: the greatest stays. `Full` comes exactly where the partition is new
    /// and `MAX_UNITS` stand. For one that stands no memory is taken.
    pub fn seen(&mut self, partition: u16, epoch: Epoch) -> Result<(), UnitRefusal>
        ensures seen { Answers (changed partition (seen_at epoch) self.old) self.old self.new result }
        ensures stands { IsTrue (is_some (at partition self.old)) → IsOk result }
    {
        let unit = self.unit(partition).seen(epoch);
        self.keep(partition, unit)
    }

    /// The greatest epoch that was noted or seen of a partition, 0.0 where there was none.
    #[tactic(auto, using(fabric_lemmas::proofs::Tables::as_maps))]
    pub fn highest(&self, partition: u16) -> Epoch
        ensures { result ≡ (unit_of partition self.now).highest }
    {
        match self.table.get(&partition) {
            Some(unit) => unit.highest,
            None => KnownUnit::nothing().highest,
        }
    }

    /// The known configuration of a partition. `NoUnit` comes exactly where none is known.
    #[tactic(auto, using(fabric_lemmas::proofs::Tables::as_maps))]
    pub fn get(&self, partition: u16) -> Result<&Config, UnitRefusal>
        ensures { MatchResult result
            (λ config. (unit_of partition self.now).config ≡ Some config.now)
            (λ e. (e ≡ UnitRefusal.NoUnit) × ((unit_of partition self.now).config ≡ None)) }
    {
        match self.table.get(&partition) {
            Some(unit) => unit.config.as_ref().ok_or(UnitRefusal::NoUnit),
            None => Err(UnitRefusal::NoUnit),
        }
    }

    #[tactic(auto, using(fabric_lemmas::proofs::Tables::sums))]
    /// How many known units have a node as a member.
    pub fn load(&self, node: u16) -> u32
        ensures { result ≡ load_of node self.now }
    {
        let members = self.table.iter().filter(|(_, unit)| unit.has_member(node));
        members.count() as u32
    }

    /// The partitions with a known configuration, rising.
    fn known(&self) -> Result<Vec<u16>, AllocError>
        ensures { IfOk result (λ known. known.items ≡ known_partitions self.now) }
    {
        let mut known = known_in(self.alloc, &self.table)?;
        known.sort_unstable();
        Ok(known)
    }

    /// The partitions with a known configuration whose points are in the range, both ends included, in
    /// rising order. Want of memory is the only refusal.
    pub fn in_range(&self, range: &Interval) -> Result<Vec<u16>, UnitRefusal>
        ensures partitions { IfOk result (λ found. found.items ≡ partitions_in range.now self.now) }
        ensures only { IsOkUnless result UnitRefusal.OutOfMemory }
    {
        let known = self.known()?;
        Ok(partitions_in(self.alloc, &known, range)?)
    }
}
