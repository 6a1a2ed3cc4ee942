ghost use Rattle.std.specs.Prelude.{◌≡◌, ◌≤◌, ℕ, Option, IfOk, OnErr, IsErrOf, true, false};
ghost use Rattle.fabric_terms.specs.declared.config.FabricConfig.{FabricConfig as Configuration};
ghost use Rattle.node_core.specs.NodeEffects.{left_in};
ghost use Rattle.node_core.specs.Nodes.{FitsInput, GoesBy};
ghost use Rattle.turn_members.specs.Members.{Does, GoesOn, IsDeedOf, IsOf, seen};
ghost use Rattle.turn_rules.specs.Steps.{Node, exceeds, left_of, present, stepped};

use crate::arbiter_steps::arbiter_step;
use crate::deed::Deed;
use arbiter_core::{Arbiter, ArbiterError};
use fabric_terms::{Head, OutOfMemory, Why};
use join_phases::Phase;
use node_core::{NodeCore, NodeEffects};
use ring_node::Input;
use ring_points::{MAX_READING, Who};
use std::alloc::Global;

/// An actor that runs.
#[derive(Drop)]
pub enum Member {
    /// A node.
    Node(Box<NodeCore>),
    /// An arbitrator, and its actor's number.
    Arbiter(u16, Arbiter),
}

/// The head of a node's reports.
pub(crate) fn node_head(turn: u64, who: Who, now: u64) -> Head
    ensures { result ≡ record { line = turn; time = None; who = who; reading = Some now } }
{
    Head {
        line: turn,
        time: None,
        who,
        reading: Some(now),
    }
}

/// The step of a node.
#[tactic(auto, unfolding(turn_rules::specs::Steps::stepped, turn_rules::specs::Steps::exceeds))]
fn node_step(core: &mut NodeCore, turn: u64, now: u64, input: &Input) -> Result<Deed, OutOfMemory>
    requires now { now ≤ MAX_READING }
    requires input { FitsInput input.now }
    ensures does { IfOk result (λ deed. (c : Configuration) (last : Option ℕ) → GoesBy c core.old → present last ≡ now →
        Does (stepped c turn last input.now (Node core.old.state)) (Node core.new.state) deed) }
    ensures goes_by { (c : Configuration) → GoesBy c core.old → GoesBy c core.new }
    ensures refused { OnErr result (core.new ≡ core.old) }
{
    let outcome = core.step(now, input)?;
    let head = node_head(turn, core.me(), now);
    Ok(Deed { head, outcome })
}

/// The step of a node, left in effects.
#[tactic(auto, unfolding(turn_rules::specs::Steps::stepped, turn_rules::specs::Steps::exceeds))]
fn node_step_into(
    core: &mut NodeCore,
    turn: u64,
    now: u64,
    input: &Input,
    effects: &mut NodeEffects,
) -> Result<Head, OutOfMemory>
    requires now { now ≤ MAX_READING }
    requires input { FitsInput input.now }
    ensures does { IfOk result (λ head. (c : Configuration) (last : Option ℕ) → GoesBy c core.old → present last ≡ now →
        Does (stepped c turn last input.now (Node core.old.state)) (Node core.new.state)
        (record { head = head; outcome = left_in effects.new })) }
    ensures goes_by { (c : Configuration) → GoesBy c core.old → GoesBy c core.new }
    ensures refused { OnErr result (core.new ≡ core.old) }
{
    core.step_into(now, input, effects)?;
    Ok(node_head(turn, core.me(), now))
}

impl Member {
    /// The actor's step, whatever kind it is of.
    fn act(
        &mut self,
        alloc: Global,
        turn: u64,
        now: u64,
        input: &Input,
    ) -> Result<Deed, ArbiterError>
        requires now { now ≤ MAX_READING }
        requires input { FitsInput input.now }
        requires goes_on { (c : Configuration) × GoesOn c self.old }
        requires room { exceeds (seen self.old) ≡ false }
        ensures does { IfOk result (λ deed. (c : Configuration) (last : Option ℕ) → GoesOn c self.old →
            present last ≡ now → Does (stepped c turn last input.now (seen self.old)) (seen self.new) deed) }
        ensures goes_on { (c : Configuration) → GoesOn c self.old → GoesOn c self.new }
        ensures full { IsErrOf result ArbiterError.TableFull → (c : Configuration) (last : Option ℕ) →
            exceeds (stepped c turn last input.now (seen self.old)).member ≡ true }
        ensures refused { OnErr result (self.new ≡ self.old) }
    {
        match self {
            Member::Node(core) => match node_step(core, turn, now, input) {
                Ok(deed) => Ok(deed),
                Err(_) => Err(ArbiterError::OutOfMemory),
            },
            Member::Arbiter(actor, arbiter) => arbiter_step(arbiter, *actor, alloc, turn, input),
        }
    }

    /// The actor's step when this comes in this turn, at this reading of the clock, in ticks. `TableFull` comes exactly
    /// where an arbitrator would make its 1,000,001st entry. Where a step is refused, nothing is changed.
    pub fn step(
        &mut self,
        alloc: Global,
        turn: u64,
        now: u64,
        input: &Input,
    ) -> Result<Deed, ArbiterError>
        requires now { now ≤ MAX_READING }
        requires input { FitsInput input.now }
        requires runs { (c : Configuration) × (actor : ℕ) × IsOf c actor self.old }
        ensures does { IfOk result (λ deed. (c : Configuration) (last : Option ℕ) → GoesOn c self.old →
            present last ≡ now → Does (stepped c turn last input.now (seen self.old)) (seen self.new) deed) }
        ensures deed { IfOk result (λ deed. (c : Configuration) (actor : ℕ) → IsOf c actor self.old →
            IsDeedOf actor deed) }
        ensures runs { (c : Configuration) (actor : ℕ) → IsOf c actor self.old → IsOf c actor self.new }
        ensures full { IsErrOf result ArbiterError.TableFull → (c : Configuration) (last : Option ℕ) →
            exceeds (stepped c turn last input.now (seen self.old)).member ≡ true }
        ensures refused { OnErr result (self.new ≡ self.old) }
    {
        self.act(alloc, turn, now, input)
    }

    /// The actor's step, whatever kind it is of, left in effects.
    fn act_into(
        &mut self,
        alloc: Global,
        turn: u64,
        now: u64,
        input: &Input,
        effects: &mut NodeEffects,
    ) -> Result<Head, ArbiterError>
        requires now { now ≤ MAX_READING }
        requires input { FitsInput input.now }
        requires goes_on { (c : Configuration) × GoesOn c self.old }
        requires room { exceeds (seen self.old) ≡ false }
        ensures does { IfOk result (λ head. (c : Configuration) (last : Option ℕ) → GoesOn c self.old →
            present last ≡ now → Does (stepped c turn last input.now (seen self.old)) (seen self.new)
            (record { head = head; outcome = left_in effects.new })) }
        ensures goes_on { (c : Configuration) → GoesOn c self.old → GoesOn c self.new }
        ensures full { IsErrOf result ArbiterError.TableFull → (c : Configuration) (last : Option ℕ) →
            exceeds (stepped c turn last input.now (seen self.old)).member ≡ true }
        ensures refused { OnErr result (self.new ≡ self.old) }
    {
        match self {
            Member::Node(core) => match node_step_into(core, turn, now, input, effects) {
                Ok(head) => Ok(head),
                Err(_) => Err(ArbiterError::OutOfMemory),
            },
            Member::Arbiter(actor, arbiter) => {
                let deed = arbiter_step(arbiter, *actor, alloc, turn, input)?;
                effects.hold(deed.outcome);
                Ok(deed.head)
            }
        }
    }

    /// The actor's step as `step` does it, left in effects that whoever runs it keeps. It gives the head of the actor's
    /// reports.
    pub fn step_into(
        &mut self,
        alloc: Global,
        turn: u64,
        now: u64,
        input: &Input,
        effects: &mut NodeEffects,
    ) -> Result<Head, ArbiterError>
        requires now { now ≤ MAX_READING }
        requires input { FitsInput input.now }
        requires runs { (c : Configuration) × (actor : ℕ) × IsOf c actor self.old }
        ensures does { IfOk result (λ head. (c : Configuration) (last : Option ℕ) → GoesOn c self.old →
            present last ≡ now → Does (stepped c turn last input.now (seen self.old)) (seen self.new)
            (record { head = head; outcome = left_in effects.new })) }
        ensures deed { IfOk result (λ head. (c : Configuration) (actor : ℕ) → IsOf c actor self.old →
            IsDeedOf actor (record { head = head; outcome = left_in effects.new })) }
        ensures runs { (c : Configuration) (actor : ℕ) → IsOf c actor self.old → IsOf c actor self.new }
        ensures full { IsErrOf result ArbiterError.TableFull → (c : Configuration) (last : Option ℕ) →
            exceeds (stepped c turn last input.now (seen self.old)).member ≡ true }
        ensures refused { OnErr result (self.new ≡ self.old) }
    {
        self.act_into(alloc, turn, now, input, effects)
    }

    /// Why the actor has left the ring, if it has.
    pub fn left(&self) -> Option<Why>
        ensures { result ≡ left_of (seen self.now) }
    {
        match self {
            Member::Node(core) => match core.ring().phase() {
                Phase::Left(left) => Some(left.why),
                _ => None,
            },
            Member::Arbiter(_, _) => None,
        }
    }
}
