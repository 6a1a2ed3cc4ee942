ghost use Rattle.std.specs.Prelude.{◌≡◌, ◌+◌, ◌≤◌, List, [], IfOk, IsTrue, OnOk, OnErr, false, length, true};
ghost use Rattle.std.specs.Prelude.{vec_capacity, vec_len};
ghost use Rattle.world_rules.specs.Starts.{node_begun_in};
ghost use Rattle.fabric_lemmas.specs.Maps.{rises};
ghost use Rattle.fabric_terms.specs.Sound.{IsSound};
ghost use Rattle.fabric_terms.specs.declared.record.Record.{Record};
ghost use Rattle.keep_log.specs.Amounts.{Holds};
ghost use Rattle.node_core.specs.Nodes.{Amounts, Does, GoesBy, IsSmall, core_of, nothing_kept, ring_of, with_states};
ghost use Rattle.node_core.specs.Begins.{part_begun};
ghost use Rattle.ring_node.specs.Nodes.{step};
ghost use Rattle.ring_node.specs.Steps.{begun};
ghost use Rattle.unit_replica.specs.Starts.{states_of};
ghost use Rattle.unit_rules.specs.Fabric.{fabric};
ghost use Rattle.world_rules.specs.Nodes.{node_begun};
ghost use Rattle.world_rules.specs.Schedules.{is_configured_node};

use super::NodeCore;
use crate::batch::Batch;
use crate::boots::{boot, instance_after, is_spent};
use crate::kept::NodeKept;
use crate::node_effects::NodeEffects;
use crate::node_parts::NodeParts;
use crate::outcome::Outcome;
use crate::unit_part::UnitNode;
use fabric_terms::{FabricConfig, OutOfMemory, Report};
use keep_log::Kept;
use ring_node::RingNode;
use ring_points::Who;
use std::alloc::Global;
use std::mem;
use unit_replica::ReplicaStates;
use world_rules::first_whole;

/// How a node starts.
impl NodeCore {
    /// A node that has not begun.
    fn unbegun(alloc: Global, config: &FabricConfig) -> Result<Box<NodeCore>, OutOfMemory>
        requires { IsSound config.now }
        ensures { IfOk result (λ n. n.value.has_room ≡ false) }
    {
        let ring = Box::new(alloc, RingNode::unbegun())?;
        let owned = ring.owned();
        let units = UnitNode::new(alloc, config);
        Ok(Box::new(
            alloc,
            NodeCore {
                alloc,
                parts: NodeParts { ring, owned, units },
                effects: None,
            },
        )?)
    }

    /// This instance begins where the ended one was, without replicas and without room for a step. What it tells comes
    /// into an empty list that has room for two reports.
    fn begin_as(
        &mut self,
        config: &FabricConfig,
        me: Who,
        whole: bool,
        spent: bool,
        told: &mut Vec<Report>,
    )
        requires sound { IsSound config.now }
        requires empty { told.old.items ≡ [] }
        requires room { vec_len told.old + 2 ≤ vec_capacity told.old }
        ensures ring { step (ring_of self.new) [] told.new.items ≡ begun config.now me whole spent }
        ensures few { length told.new.items ≤ 2 }
        ensures core { self.new ≡ core_of (ring_of self.new) (part_begun config.now []) }
    {
        NodeEffects::drop_from(&mut self.effects);
        let parts = &mut self.parts;
        parts.ring.begin_again(config, me, whole, spent, told);
        parts.ring.keep_owned(&mut parts.owned);
        parts.units = UnitNode::new(self.alloc, config);
    }

    /// Starts a node as `begin_in` does, in the place of an instance that has ended, of whichever node. It is an error
    /// where memory is short, and then the ended instance and `kept` are as they were.
    #[tactic(auto, unfolding(crate::specs::Nodes::most_frames))]
    pub fn begin_again_in(
        &mut self,
        config: &FabricConfig,
        whole: Who,
        node: u16,
        kept: &mut NodeKept,
    ) -> Result<Outcome, OutOfMemory>
        requires sound { IsSound config.now }
        requires node { is_configured_node config.now node ≡ true }
        ensures begins { IfOk result (λ o. (records : List Record) → Amounts records kept.old →
            Does (node_begun_in fabric whole config.now node records) self.new o) }
        ensures goes_by { OnOk result (GoesBy config.now self.new) }
        ensures small { IfOk result (IsSmall self.new.state) }
        ensures taken { OnOk result (kept.new ≡ nothing_kept) }
        ensures refused { OnErr result ((self.new ≡ self.old) × (kept.new ≡ kept.old)) }
    {
        let spent = is_spent(kept.boots);
        let instance = instance_after(kept.boots);
        let me = Who {
            actor: node,
            instance,
        };
        let first = me == whole;
        let alloc = self.alloc;
        let records = boot(alloc, instance, spent)?;
        let mut reports = Vec::with_capacity(alloc, 2)?;
        self.begin_as(config, me, first, spent, &mut reports);
        self.put_states(mem::replace(kept, NodeKept::new(alloc)).states);
        Ok(Outcome {
            records: Batch::new(records),
            frames: Batch::new(Vec::new(alloc)),
            reports: Batch::new(reports),
        })
    }

    /// Starts a node from what is kept of it: its next instance, or the last again where all numbers are used up, and
    /// then it has left. The instance begins with the whole ring if it is `whole`, and else with nothing. What was kept
    /// is the node's from here on. It is an error where memory is short, and then `kept` is as it was.
    #[inline(never)]
    pub fn begin_in(
        alloc: Global,
        config: &FabricConfig,
        whole: Who,
        node: u16,
        kept: &mut NodeKept,
    ) -> Result<(Box<NodeCore>, Outcome), OutOfMemory>
        requires sound { IsSound config.now }
        requires node { is_configured_node config.now node ≡ true }
        ensures begins { IfOk result (λ r. (records : List Record) → Amounts records kept.old →
            Does (node_begun_in fabric whole config.now node records) r.0.value r.1) }
        ensures goes_by { IfOk result (λ r. GoesBy config.now r.0.value) }
        ensures small { IfOk result (λ r. IsSmall r.0.value.state r.1) }
        ensures taken { OnOk result (kept.new ≡ nothing_kept) }
        ensures refused { OnErr result (kept.new ≡ kept.old) }
    {
        let mut core = NodeCore::unbegun(alloc, config)?;
        let outcome = core.begin_again_in(config, whole, node, kept)?;
        Ok((core, outcome))
    }

    /// Starts a node as `begin_in` does, in the first life of its cluster.
    pub fn begin(
        alloc: Global,
        config: &FabricConfig,
        node: u16,
        kept: &mut NodeKept,
        _now: u64,
    ) -> Result<(Box<NodeCore>, Outcome), OutOfMemory>
        requires sound { IsSound config.now }
        requires node { is_configured_node config.now node ≡ true }
        ensures begins { IfOk result (λ r. (records : List Record) → Amounts records kept.old →
            Does (node_begun fabric config.now node records) r.0.value r.1) }
        ensures goes_by { IfOk result (λ r. GoesBy config.now r.0.value) }
        ensures small { IfOk result (λ r. IsSmall r.0.value.state r.1) }
        ensures taken { OnOk result (kept.new ≡ nothing_kept) }
        ensures refused { OnErr result (kept.new ≡ kept.old) }
    {
        NodeCore::begin_in(alloc, config, first_whole(config), node, kept)
    }

    /// Starts a node as `begin_again_in` does, in the first life of its cluster.
    pub fn begin_again(
        &mut self,
        config: &FabricConfig,
        node: u16,
        kept: &mut NodeKept,
    ) -> Result<Outcome, OutOfMemory>
        requires sound { IsSound config.now }
        requires node { is_configured_node config.now node ≡ true }
        ensures begins { IfOk result (λ o. (records : List Record) → Amounts records kept.old →
            Does (node_begun fabric config.now node records) self.new o) }
        ensures goes_by { OnOk result (GoesBy config.now self.new) }
        ensures small { IfOk result (IsSmall self.new.state) }
        ensures taken { OnOk result (kept.new ≡ nothing_kept) }
        ensures refused { OnErr result ((self.new ≡ self.old) × (kept.new ≡ kept.old)) }
    {
        self.begin_again_in(config, first_whole(config), node, kept)
    }

    /// The node begins with these replicas. It has no room for a step yet.
    fn put_states(&mut self, states: ReplicaStates)
        requires { self.old.has_room ≡ false }
        ensures { self.new ≡ with_states states self.old }
    {
        self.parts.units.put_states(states);
    }

    /// Starts a node as `begin_in` does, from what its records amount to. It is an error where memory is short, and then
    /// `kept` is dropped.
    pub fn start_in(
        alloc: Global,
        config: &FabricConfig,
        whole: Who,
        node: u16,
        kept: Kept,
    ) -> Result<(NodeCore, Outcome), OutOfMemory>
        requires sound { IsSound config.now }
        requires node { is_configured_node config.now node ≡ true }
        requires replicas { IsTrue (rises (states_of kept.replicas)) }
        ensures begins { IfOk result (λ r. (records : List Record) → Holds records kept →
            Does (node_begun_in fabric whole config.now node records) r.0 r.1) }
        ensures goes_by { IfOk result (λ r. GoesBy config.now r.0) }
        ensures small { IfOk result (λ r. IsSmall r.0.state r.1) }
    {
        let mut replicas = kept.replicas.into_vec();
        let mut kept = NodeKept {
            boots: kept.boots,
            states: ReplicaStates::begun(alloc, &mut replicas)?,
        };
        let (core, outcome) = NodeCore::begin_in(alloc, config, whole, node, &mut kept)?;
        Ok((Box::into_inner(core), outcome))
    }

    /// Starts a node as `start_in` does, in the first life of its cluster.
    pub fn start(
        alloc: Global,
        config: &FabricConfig,
        node: u16,
        kept: Kept,
        _now: u64,
    ) -> Result<(NodeCore, Outcome), OutOfMemory>
        requires sound { IsSound config.now }
        requires node { is_configured_node config.now node ≡ true }
        requires replicas { IsTrue (rises (states_of kept.replicas)) }
        ensures begins { IfOk result (λ r. (records : List Record) → Holds records kept →
            Does (node_begun fabric config.now node records) r.0 r.1) }
        ensures goes_by { IfOk result (λ r. GoesBy config.now r.0) }
        ensures small { IfOk result (λ r. IsSmall r.0.state r.1) }
    {
        NodeCore::start_in(alloc, config, first_whole(config), node, kept)
    }
}
