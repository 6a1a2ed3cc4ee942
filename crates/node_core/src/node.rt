ghost use Rattle.std.specs.Prelude.{◌≡◌, ◌≤◌, ◌+◌, ◌||◌, [], IfOk, OnOk, OnErr, false, not, true};
ghost use Rattle.fabric_terms.specs.declared.config.FabricConfig.{FabricConfig as Configuration};
ghost use Rattle.ring_points.specs.Limits.{most_arbiters, most_messages};
ghost use Rattle.world_rules.specs.Nodes.{node_step};
ghost use Rattle.unit_rules.specs.Fabric.{fabric};
ghost use Rattle.ring_node.specs.Owned.{owned_of};
ghost use Rattle.node_core.specs.Memory.{may_store};
ghost use Rattle.node_core.specs.NodeEffects.{HasRoom, IsAsLarge, IsClear, left_in};
ghost use Rattle.node_core.specs.Nodes.{Does, FitsInput, GoesBy, IsNothing, IsSmall, KeepsRoom, frames_limit};
ghost use Rattle.node_core.specs.Nodes.{kept_in, most_frames, with_states};
ghost use Rattle.node_core.specs.UnitParts.{most_fired};

mod start;
mod state;

use crate::kept::NodeKept;
use crate::node_effects::{NodeEffects, drop_boxed};
use crate::node_parts::NodeParts;
use crate::outcome::Outcome;
use crate::unit_part::UnitNode;
use crate::whole_step::step_at;
use fabric_terms::OutOfMemory;
use ring_node::Input;
use ring_points::{MAX_ARBITRATORS, MAX_READING, OUTBOX_LIMIT};
use std::alloc::Global;
use std::marker::Model;
use std::mem;
use unit_replica::MAX_PEERS;

/// A whole node. Contracts see it as the record `Core`: what it goes by, its ring and what runs above it.
#[derive(Drop)]
pub struct NodeCore {
    alloc: Global,
    parts: NodeParts,
    /// Where `step` puts what it leaves, with room for that. There are none before the first such step, where memory
    /// for them was short since, and where the last step was done into effects of the caller's.
    effects: Option<Box<NodeEffects>>,
}

impl Model for NodeCore {
    ghost use Rattle.std.specs.Prelude.{◌≡◌, IfSome, is_some};
    ghost use Rattle.ring_node.specs.Owned.{owned_of};
    ghost use Rattle.node_core.specs.NodeEffects.{HasRoom};
    ghost use Rattle.node_core.specs.Nodes.{Core, core_in, most_frames};

    ghost Value = { Core };

    ghost view = { λ n. record (core_in n.parts) { has_room = is_some n.effects } };

    ghost invariant = { λ n. (n.parts.owned ≡ owned_of n.parts.ring.value) ×
        IfSome n.effects (λ d. HasRoom (most_frames (core_in n.parts).state) d.value) };
}

/// The most frames of a step with this above the ring: what the ring sends, a row above it, which asks each arbitrator
/// once at most, and a firing, at which a reconfiguration does so and a replica sends to each other member.
#[tactic(auto, unfolding(crate::specs::Nodes::most_frames))]
fn most_frames_of(units: &UnitNode) -> usize
    ensures frames { result ≡ most_messages + most_arbiters + most_fired units.now.state }
    ensures limit { result ≤ frames_limit }
{
    OUTBOX_LIMIT
        + MAX_ARBITRATORS
        + MAX_ARBITRATORS * units.reconfig_count()
        + MAX_PEERS * units.replica_count()
}

impl NodeCore {
    /// Gives back what is kept of the node, for its next start: nothing else of a node is needed once it has stopped.
    /// The node has no replica then, and no room for a step.
    pub fn take_kept(&mut self) -> NodeKept
        ensures given { result ≡ kept_in self.old.state }
        ensures left { self.new ≡ record (with_states [] self.old) { has_room = false } }
    {
        NodeEffects::drop_from(&mut self.effects);
        NodeKept {
            boots: self.parts.ring.me().instance,
            states: self.parts.units.take_states(self.alloc),
        }
    }

    /// Takes out the effects that the node keeps, or makes some where there are none. It is an error where memory for
    /// them is short.
    fn take_effects(&mut self) -> Result<Box<NodeEffects>, OutOfMemory>
        ensures room { self.old.has_room ≡ true →
            IfOk result (λ d. HasRoom (most_frames self.old.state) d.value) }
        ensures taken { OnOk result (self.new ≡ record self.old { has_room = false }) }
        ensures refused { OnErr result ((self.new ≡ self.old) × (self.old.has_room ≡ false)) }
    {
        NodeEffects::take_from(&mut self.effects, self.alloc)
    }

    /// Keeps effects for the next step where they are wanted, and have room for it or can be given it.
    #[tactic(auto, unfolding(crate::specs::Nodes::most_frames))]
    fn keep_effects(&mut self, mut effects: Box<NodeEffects>, is_wanted: bool)
        requires taken { self.old.has_room ≡ false }
        requires nothing { IsNothing (left_in effects.value) }
        ensures rest { self.new ≡ record self.old { has_room = self.new.has_room } }
        ensures kept { is_wanted ≡ true → HasRoom (most_frames self.old.state) effects.value →
            self.new.has_room ≡ true }
        ensures dropped { is_wanted ≡ false → self.new.has_room ≡ false }
    {
        if !is_wanted {
            drop_boxed(effects);
            return;
        }
        match effects.make_room(most_frames_of(&self.parts.units)) {
            Ok(()) => NodeEffects::keep_in(&mut self.effects, effects),
            Err(_) => drop_boxed(effects),
        }
    }

    /// The step of the node when this comes, at this reading of its clock, in ticks. What it leaves is in the effects
    /// then, in the place of what they had. It is an error where memory is short, and then the node is as it was, and
    /// the effects are clear. Effects with room for what the step leaves want memory only for what a row above the ring
    /// stores: an entry, a replica or a reconfiguration; and for the answer to a question about names or units. So no
    /// late frame and no refusal is an error there. The node drops the effects that it keeps itself.
    #[tactic(auto, unfolding(crate::specs::Nodes::most_frames))]
    pub fn step_into(
        &mut self,
        now: u64,
        input: &Input,
        effects: &mut NodeEffects,
    ) -> Result<(), OutOfMemory>
        requires now { now ≤ MAX_READING }
        requires input { FitsInput input.now }
        ensures does { OnOk result ((c : Configuration) → GoesBy c self.old →
            Does (node_step fabric c now input.now self.old.state) self.new (left_in effects.new)) }
        ensures small { OnOk result (IsSmall self.old.state (left_in effects.new)) }
        ensures settings { self.new.settings ≡ self.old.settings }
        ensures domains { self.new.domains ≡ self.old.domains }
        ensures me { self.new.state.ring.me ≡ self.old.state.ring.me }
        ensures refused { OnErr result ((self.new ≡ self.old) × IsClear effects.new) }
        ensures memory { OnErr result (HasRoom (most_frames self.old.state) effects.old →
            may_store now input.now self.old ≡ true) }
        ensures room { IsAsLarge effects.old effects.new }
        ensures dropped { OnOk result (self.new.has_room ≡ false) }
    {
        effects.make_ready(most_frames_of(&self.parts.units))?;
        step_at(&mut self.parts, now, input, effects)?;
        NodeEffects::drop_from(&mut self.effects);
        Ok(())
    }

    /// The step of the node as `step_into` does it, into effects that the node keeps itself. A node with room wants
    /// memory only for what a row above the ring stores or answers.
    #[tactic(auto, unfolding(crate::specs::Nodes::most_frames))]
    pub fn step(&mut self, now: u64, input: &Input) -> Result<Outcome, OutOfMemory>
        requires now { now ≤ MAX_READING }
        requires input { FitsInput input.now }
        ensures does { IfOk result (λ o. (c : Configuration) → GoesBy c self.old →
            Does (node_step fabric c now input.now self.old.state) self.new o) }
        ensures small { IfOk result (IsSmall self.old.state) }
        ensures settings { self.new.settings ≡ self.old.settings }
        ensures domains { self.new.domains ≡ self.old.domains }
        ensures me { self.new.state.ring.me ≡ self.old.state.ring.me }
        ensures refused { OnErr result (self.new ≡ self.old) }
        ensures memory { OnErr result ((not self.old.has_room || may_store now input.now self.old) ≡ true) }
        ensures room { IfOk result (KeepsRoom self.old self.new) }
    {
        let had_room = self.effects.is_some();
        let mut effects = self.take_effects()?;
        match self.step_into(now, input, &mut effects) {
            Ok(()) => {
                let outcome = effects.give_away(self.alloc);
                self.keep_effects(effects, true);
                Ok(outcome)
            }
            Err(refused) => {
                self.keep_effects(effects, had_room);
                Err(refused)
            }
        }
    }
}
