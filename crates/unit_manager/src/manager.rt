ghost use Rattle.std.specs.Prelude.{◌≡◌, ◌≤◌, [], is_some, length};
ghost use Rattle.std.specs.Option.{option_copied};
ghost use Rattle.fabric_lemmas.specs.Maps.{at};
ghost use Rattle.failover_units.specs.Units.{unit_of};
ghost use Rattle.unit_manager.specs.Managers.{reconfigs_of};

use crate::entries::find;
use failover_units::Units;
use reconfig_phases::Reconfig;
use ring_points::{Config, MAX_PARTITIONS};
use std::alloc::Global;
use std::marker::Model;

/// The partitions that a node knows of, and the reconfigurations under way, at most one of a partition. Contracts see
/// the record that the rules call `Managed`.
#[derive(Drop)]
pub struct Manager {
    pub(crate) units: Units,
    /// By rising partition.
    pub(crate) reconfigs: Vec<(u16, Reconfig)>,
}

impl Model for Manager {
    ghost use Rattle.unit_rules.specs.Manager.{Managed};
    ghost use Rattle.unit_manager.specs.Managers.{IsManaged, managed};

    ghost Value = { Managed };

    ghost view = { λ m. managed m.units m.reconfigs.items };

    ghost invariant = { λ m. IsManaged (managed m.units m.reconfigs.items) };
}

impl Manager {
    /// A manager that knows no partition. It grows by this allocator.
    #[tactic(auto, using(crate::proofs::Keeping::nothing_managed))]
    pub fn new(alloc: Global) -> Self
        ensures { result ≡ record { units = []; reconfigs = [] } }
    {
        Manager {
            units: Units::new(alloc),
            reconfigs: Vec::new(alloc),
        }
    }

    /// How many reconfigurations are under way.
    pub fn reconfig_count(&self) -> usize
        ensures count { result ≡ length self.now.reconfigs }
        ensures few { result ≤ MAX_PARTITIONS }
    {
        self.reconfigs.len()
    }

    /// The configuration of greatest epoch that the manager knows of the partition, if it knows one.
    pub fn config_of(&self, partition: u16) -> Option<&Config>
        ensures { option_copied result ≡ (unit_of partition self.now.units).config }
    {
        self.units.get(partition).ok()
    }

    /// Whether a reconfiguration of the partition is under way.
    pub fn is_changing(&self, partition: u16) -> bool
        ensures { result ≡ is_some (at partition self.now.reconfigs) }
    {
        find(&self.reconfigs, partition).is_some()
    }

    /// The reconfigurations under way, each with its partition, by rising partition.
    pub fn reconfigs(&self) -> &[(u16, Reconfig)]
        ensures { reconfigs_of result.now ≡ self.now.reconfigs }
    {
        &self.reconfigs
    }
}
