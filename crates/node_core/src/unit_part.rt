ghost use Rattle.std.specs.Prelude.{◌≡◌, ◌≤◌, [], length};
ghost use Rattle.std.specs.Option.{option_copied};
ghost use Rattle.fabric_terms.specs.Sound.{IsSound};
ghost use Rattle.unit_replica.specs.Starts.{states_again};
ghost use Rattle.unit_replica.specs.Tables.{replica_at};
ghost use Rattle.node_core.specs.UnitParts.{domains_of};

use arrayvec::ArrayVec;
use fabric_terms::FabricConfig;
use replica_core::Replica;
use ring_points::{MAX_NODES, MAX_PARTITIONS};
use std::alloc::Global;
use std::marker::Model;
use std::mem;
use unit_manager::Manager;
use unit_replica::ReplicaStates;

/// What runs above the ring at a node. Contracts see the fault domains by which it places, and the rules' record of the
/// manager and the replicas.
#[derive(Drop)]
pub struct UnitNode {
    /// Each configured node with its fault domain, in the order of the configuration.
    pub(crate) domains: ArrayVec<(u16, u16), MAX_NODES>,
    pub(crate) manager: Manager,
    pub(crate) states: ReplicaStates,
}

impl Model for UnitNode {
    ghost use Rattle.std.specs.Prelude.{◌≤◌, length};
    ghost use Rattle.node_core.specs.UnitParts.{Part};
    ghost use Rattle.ring_points.specs.Limits.{most_nodes};

    ghost Value = { Part };

    ghost view = { λ u. record {
      domains = u.domains.items;
      state = record { managed = u.manager; states = u.states };
    } };

    ghost invariant = { λ u. length u.domains.items ≤ most_nodes };
}

fn domains_of(config: &FabricConfig) -> ArrayVec<(u16, u16), MAX_NODES>
    requires { IsSound config.now }
    ensures domains { result.items ≡ domains_of config.now }
    ensures few { length result.items ≤ MAX_NODES }
{
    let mut domains = ArrayVec::new();
    for entry in config.nodes.as_slice() {
        domains.push((entry.node, entry.domain));
    }
    domains
}

impl UnitNode {
    /// The start of an instance without replicas: it knows of no partition, and nothing is on its way.
    pub fn new(alloc: Global, config: &FabricConfig) -> Self
        requires { IsSound config.now }
        ensures { result ≡ record {
          domains = domains_of config.now;
          state = record { managed = record { units = []; reconfigs = [] }; states = [] };
        } }
    {
        UnitNode {
            domains: domains_of(config),
            manager: Manager::new(alloc),
            states: ReplicaStates::new(alloc),
        }
    }

    /// These are the node's replicas.
    pub fn put_states(&mut self, states: ReplicaStates)
        ensures { self.new ≡ record self.old { state = record self.old.state { states = states } } }
    {
        self.states = states;
    }

    /// Gives away the replicas that records name, as the next instance begins with them. None is left. It takes no
    /// memory.
    pub fn take_states(&mut self, alloc: Global) -> ReplicaStates
        ensures given { result ≡ states_again self.old.state.states }
        ensures left { self.new ≡ record self.old { state = record self.old.state { states = [] } } }
    {
        let mut states = mem::replace(&mut self.states, ReplicaStates::new(alloc));
        states.begin_again();
        states
    }

    /// How many reconfigurations the node has on their way.
    pub fn reconfig_count(&self) -> usize
        ensures count { result ≡ length self.now.state.managed.reconfigs }
        ensures few { result ≤ MAX_PARTITIONS }
    {
        self.manager.reconfig_count()
    }

    /// How many replicas the node has.
    pub fn replica_count(&self) -> usize
        ensures count { result ≡ length self.now.state.states }
        ensures few { result ≤ MAX_PARTITIONS }
    {
        self.states.count()
    }

    /// The node's replica of a partition, None exactly where it has none.
    pub fn replica(&self, partition: u16) -> Option<&Replica>
        ensures { option_copied result ≡ replica_at partition self.now.state.states }
    {
        self.states.replica(partition)
    }
}
