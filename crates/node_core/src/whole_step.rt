ghost use Rattle.std.specs.Prelude.{◌≡◌, ◌≤◌, ◌+◌, ◌++◌, IsTrue, OnErr, OnOk, false, is_some, length, true, vec_len};
ghost use Rattle.fabric_terms.specs.declared.config.FabricConfig.{FabricConfig as Configuration};
ghost use Rattle.fabric_terms.specs.Messages.{is_sound};
ghost use Rattle.fabric_terms.specs.Sent.{from_all};
ghost use Rattle.reconfig_phases.specs.Answers.{answered_unit};
ghost use Rattle.ring_rules.specs.declared.input.Input.TheVariants as inputs;
ghost use Rattle.world_rules.specs.Nodes.{node_step};
ghost use Rattle.unit_rules.specs.Fabric.{fabric};
ghost use Rattle.ring_node.specs.Owned.{own_since, owned_of};
ghost use Rattle.node_core.specs.UnitParts.{is_later};
ghost use Rattle.node_core.specs.NodeEffects.{HasPlace, IsAsLarge, IsReady, left_in};
ghost use Rattle.node_core.specs.Memory.{may_store};
ghost use Rattle.node_core.specs.Nodes.{Does, FitsInput, GoesBy, IsSmall, core_in, frames_limit, most_frames};

use crate::above::{answer_later, fire_later, take_first};
use crate::node_effects::NodeEffects;
use crate::node_parts::NodeParts;
use fabric_terms::{Message, OutOfMemory};
use reconfig_phases::answered_unit;
use ring_node::{Input, Owned, RingNode};
use ring_points::MAX_READING;
use unit_desk::{MAX_ROW_RECORDS, MAX_ROW_REPORTS};

/// Leaves what was done, once all is: what the ring sent and told comes first, and what is owned is told last.
fn leave(ring: &RingNode, owned: &mut Owned, effects: &mut NodeEffects)
    requires place { HasPlace effects.old }
    ensures records { effects.new.records.items ≡ effects.old.records.items ++ effects.old.units.records }
    ensures frames { effects.new.frames.items ≡ (effects.old.frames.items ++ from_all ring.now.ring.me effects.old.out)
        ++ from_all ring.now.ring.me effects.old.units.out }
    ensures reports { effects.new.reports.items ≡ ((effects.old.reports.items ++ effects.old.told.value)
        ++ effects.old.units.told) ++ own_since owned.old ring.now }
    ensures few_records { length effects.new.records.items ≤ vec_len effects.old.records + MAX_ROW_RECORDS }
    ensures few_frames { length effects.new.frames.items ≤ vec_len effects.old.frames +
        (length effects.old.out + length effects.old.units.out) }
    ensures few_reports { length effects.new.reports.items ≤ vec_len effects.old.reports +
        (length effects.old.told.value + MAX_ROW_REPORTS + 1) }
    ensures owned { owned.new ≡ owned_of ring.now }
    ensures room { IsAsLarge effects.old effects.new }
{
    let me = ring.me();
    // No row leaves more than its effects hold.
    let kept = effects.units.records.as_slice().len();
    let told = effects.units.told.as_slice().len();
    prove!(kept <= MAX_ROW_RECORDS && told <= MAX_ROW_REPORTS);
    effects.units.records.hand_over(&mut effects.records);
    effects.out.hand_over(me, &mut effects.frames);
    effects.units.out.hand_over(me, &mut effects.frames);
    effects.told.hand_over(&mut effects.reports);
    effects.units.told.hand_over(&mut effects.reports);
    ring.tell_own(owned, &mut effects.told);
    effects.told.hand_over(&mut effects.reports);
}

/// The step of a command, or of a frame that is no answer to the manager. It is an error where memory is short for what
/// its row stores or answers, and then the node is as it was.
#[tactic(auto, unfolding(crate::specs::Nodes::most_frames))]
fn take_input(
    parts: &mut NodeParts,
    now: u64,
    input: &Input,
    effects: &mut NodeEffects,
) -> Result<(), OutOfMemory>
    requires now { now ≤ MAX_READING }
    requires input { FitsInput input.now }
    requires first { is_later input.now ≡ false }
    requires owned { parts.old.owned ≡ owned_of parts.old.ring.value }
    requires ready { IsReady (most_frames (core_in parts.old).state) effects.old }
    requires limit { most_frames (core_in parts.old).state ≤ frames_limit }
    ensures does { OnOk result ((c : Configuration) → GoesBy c (core_in parts.old) →
        Does (node_step fabric c now input.now (core_in parts.old).state) (core_in parts.new) (left_in effects.new)) }
    ensures small { OnOk result (IsSmall (core_in parts.old).state (left_in effects.new)) }
    ensures settings { parts.new.ring.value.settings ≡ parts.old.ring.value.settings }
    ensures domains { parts.new.units.domains ≡ parts.old.units.domains }
    ensures me { parts.new.ring.value.ring.me ≡ parts.old.ring.value.ring.me }
    ensures owned { parts.new.owned ≡ owned_of parts.new.ring.value }
    ensures refused { OnErr result ((parts.new ≡ parts.old) × (effects.new ≡ effects.old)) }
    ensures memory { OnErr result (may_store now input.now (core_in parts.old) ≡ true) }
    ensures room { IsAsLarge effects.old effects.new }
{
    take_first(
        now,
        &parts.ring,
        &mut parts.units,
        input,
        &mut effects.units,
    )?;
    let ring = &mut *parts.ring;
    ring.advance(now, input, &mut effects.out, &mut effects.told);
    leave(ring, &mut parts.owned, effects);
    Ok(())
}

/// The step of an answer to the manager, the message of this input. It needs no memory.
#[tactic(auto, unfolding(crate::specs::Nodes::most_frames))]
fn take_answer(
    parts: &mut NodeParts,
    now: u64,
    input: &Input,
    message: &Message,
    effects: &mut NodeEffects,
)
    requires now { now ≤ MAX_READING }
    requires input { input.now ≡ inputs.Frame message.now }
    requires sound { IsTrue (is_sound message.now) }
    requires answer { is_some (answered_unit message.now.body) ≡ true }
    requires owned { parts.old.owned ≡ owned_of parts.old.ring.value }
    requires ready { IsReady (most_frames (core_in parts.old).state) effects.old }
    requires limit { most_frames (core_in parts.old).state ≤ frames_limit }
    ensures does { (c : Configuration) → GoesBy c (core_in parts.old) →
        Does (node_step fabric c now input.now (core_in parts.old).state) (core_in parts.new) (left_in effects.new) }
    ensures small { IsSmall (core_in parts.old).state (left_in effects.new) }
    ensures settings { parts.new.ring.value.settings ≡ parts.old.ring.value.settings }
    ensures domains { parts.new.units.domains ≡ parts.old.units.domains }
    ensures me { parts.new.ring.value.ring.me ≡ parts.old.ring.value.ring.me }
    ensures owned { parts.new.owned ≡ owned_of parts.new.ring.value }
    ensures room { IsAsLarge effects.old effects.new }
{
    let ring = &mut *parts.ring;
    let comes = ring.passes(message);
    ring.advance(now, input, &mut effects.out, &mut effects.told);
    answer_later(
        now,
        ring,
        comes,
        &mut parts.units,
        message,
        &mut effects.units,
    );
    leave(ring, &mut parts.owned, effects);
}

/// The step of a firing. It needs no memory. It frees some of what the replicas let go.
#[tactic(auto, unfolding(crate::specs::Nodes::most_frames))]
fn take_firing(parts: &mut NodeParts, now: u64, effects: &mut NodeEffects)
    requires now { now ≤ MAX_READING }
    requires owned { parts.old.owned ≡ owned_of parts.old.ring.value }
    requires ready { IsReady (most_frames (core_in parts.old).state) effects.old }
    requires limit { most_frames (core_in parts.old).state ≤ frames_limit }
    ensures does { (c : Configuration) → GoesBy c (core_in parts.old) →
        Does (node_step fabric c now inputs.Fire (core_in parts.old).state) (core_in parts.new) (left_in effects.new) }
    ensures small { IsSmall (core_in parts.old).state (left_in effects.new) }
    ensures settings { parts.new.ring.value.settings ≡ parts.old.ring.value.settings }
    ensures units { parts.new.units ≡ parts.old.units }
    ensures me { parts.new.ring.value.ring.me ≡ parts.old.ring.value.ring.me }
    ensures owned { parts.new.owned ≡ owned_of parts.new.ring.value }
    ensures room { IsAsLarge effects.old effects.new }
{
    let ring = &mut *parts.ring;
    ring.advance(now, &Input::Fire, &mut effects.out, &mut effects.told);
    effects.out.hand_over(ring.me(), &mut effects.frames);
    fire_later(
        ring,
        &parts.units,
        &mut effects.units.out,
        &mut effects.frames,
    );
    parts.units.free_released();
    leave(ring, &mut parts.owned, effects);
}

/// The step of a whole node, into effects that are ready for it. It is an error where memory is short for what a row
/// above the ring stores or answers, and then the node is as it was.
pub(crate) fn step_at(
    parts: &mut NodeParts,
    now: u64,
    input: &Input,
    effects: &mut NodeEffects,
) -> Result<(), OutOfMemory>
    requires now { now ≤ MAX_READING }
    requires input { FitsInput input.now }
    requires owned { parts.old.owned ≡ owned_of parts.old.ring.value }
    requires ready { IsReady (most_frames (core_in parts.old).state) effects.old }
    requires limit { most_frames (core_in parts.old).state ≤ frames_limit }
    ensures does { OnOk result ((c : Configuration) → GoesBy c (core_in parts.old) →
        Does (node_step fabric c now input.now (core_in parts.old).state) (core_in parts.new) (left_in effects.new)) }
    ensures small { OnOk result (IsSmall (core_in parts.old).state (left_in effects.new)) }
    ensures settings { parts.new.ring.value.settings ≡ parts.old.ring.value.settings }
    ensures domains { parts.new.units.domains ≡ parts.old.units.domains }
    ensures me { parts.new.ring.value.ring.me ≡ parts.old.ring.value.ring.me }
    ensures owned { parts.new.owned ≡ owned_of parts.new.ring.value }
    ensures refused { OnErr result ((parts.new ≡ parts.old) × (effects.new ≡ effects.old)) }
    ensures memory { OnErr result (may_store now input.now (core_in parts.old) ≡ true) }
    ensures room { IsAsLarge effects.old effects.new }
{
    match input {
        Input::Fire => {
            take_firing(parts, now, effects);
            Ok(())
        }
        Input::Frame(message) => {
            if answered_unit(&message.body).is_some() {
                take_answer(parts, now, input, message, effects);
                Ok(())
            } else {
                take_input(parts, now, input, effects)
            }
        }
        Input::Do(_) => take_input(parts, now, input, effects),
    }
}
