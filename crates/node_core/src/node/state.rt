ghost use Rattle.std.specs.Prelude.{◌≡◌, ◌≤◌, IfOk, is_some, map};
ghost use Rattle.std.specs.Option.{option_copied};
ghost use Rattle.fabric_lemmas.specs.Maps.{at};
ghost use Rattle.failover_units.specs.Units.{unit_of};
ghost use Rattle.node_core.specs.Nodes.{frames_limit, most_frames, ring_of};
ghost use Rattle.ring_route.specs.Routes.{up_of};
ghost use Rattle.ring_rules.specs.Slots.{fence_of};
ghost use Rattle.unit_manager.specs.Managers.{reconfigs_of};
ghost use Rattle.unit_replica.specs.Tables.{replica_at};

use super::{NodeCore, most_frames_of};
use fabric_terms::OutOfMemory;
use reconfig_phases::Reconfig;
use replica_core::Replica;
use ring_node::RingNode;
use ring_points::{Config, RangeSet, Who};
use ring_rules::Link;
use std::alloc::Global;

/// What can be seen of a node between its steps.
impl NodeCore {
    /// How many frames the next step sends at most.
    #[tactic(auto, unfolding(crate::specs::Nodes::most_frames))]
    pub fn most_frames(&self) -> usize
        ensures frames { result ≡ most_frames self.now.state }
        ensures limit { result ≤ frames_limit }
    {
        most_frames_of(&self.parts.units)
    }

    /// The node's replica of a partition, None exactly where it has none.
    pub fn replica(&self, partition: u16) -> Option<&Replica>
        ensures { option_copied result ≡ replica_at partition self.now.state.above.states }
    {
        self.parts.units.replica(partition)
    }

    /// Which instance it is.
    pub fn me(&self) -> Who
        ensures { result ≡ self.now.state.ring.me }
    {
        self.parts.ring.me()
    }

    /// What it owns.
    pub fn ranges(&self) -> &RangeSet
        ensures { result.now ≡ self.now.state.ring.token.ranges }
    {
        self.parts.ring.ranges()
    }

    /// Up to which reading it holds what it owns, in ticks, where there is an end.
    pub fn fence(&self) -> Option<u64>
        ensures { result ≡ fence_of self.now.settings.answer self.now.state.ring.slots }
    {
        self.parts.ring.fence()
    }

    /// The ring at the node.
    pub fn ring(&self) -> &RingNode
        ensures { result.now ≡ ring_of self.now }
    {
        &self.parts.ring
    }

    /// The latest instance of another node that this one has heard, if it heard that instance at the reading `since`
    /// or later. It may be accused.
    pub fn heard(&self, node: u16, since: u64) -> Option<Who>
        ensures { result ≡ up_of self.now.state.ring.routes node since }
    {
        self.parts.ring.heard(node, since)
    }

    /// The slots of the links, free ones too: of each link its peer, its state and the length of its lease, in ticks.
    pub fn slots(&self) -> &[Option<Link>]
        ensures { result.now ≡ self.now.state.ring.slots }
    {
        self.parts.ring.slots()
    }

    /// The configuration of greatest epoch that the node's manager knows of the partition, if it knows one.
    pub fn config_of(&self, partition: u16) -> Option<&Config>
        ensures { option_copied result ≡ (unit_of partition self.now.state.above.managed.units).config }
    {
        self.parts.units.manager.config_of(partition)
    }

    /// Whether the node has a reconfiguration of the partition under way.
    pub fn is_changing(&self, partition: u16) -> bool
        ensures { result ≡ is_some (at partition self.now.state.above.managed.reconfigs) }
    {
        self.parts.units.manager.is_changing(partition)
    }

    /// The reconfigurations that the node has under way, each with its partition, by rising partition.
    pub fn reconfigs(&self) -> &[(u16, Reconfig)]
        ensures { reconfigs_of result.now ≡ self.now.state.above.managed.reconfigs }
    {
        self.parts.units.manager.reconfigs()
    }

    /// The partitions of which the node has a replica, rising. It is an error if memory for them is short.
    pub fn replica_partitions(&self, alloc: Global) -> Result<Vec<u16>, OutOfMemory>
        ensures { IfOk result (λ found. found.items ≡ map (λ e. e.0) self.now.state.above.states) }
    {
        self.parts.units.states.partitions(alloc)
    }
}
