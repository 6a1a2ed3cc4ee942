ghost use Rattle.std.specs.Prelude.{◌≡◌, ◌≤◌, ◌+◌, ◌++◌, ◌&&◌, [], IfOk, IsTrue, OnErr, false, is_some, length, not, true};
ghost use Rattle.std.specs.Prelude.{vec_capacity, vec_len};
ghost use Rattle.fabric_terms.specs.Messages.{is_sound};
ghost use Rattle.fabric_terms.specs.Sent.{from_all};
ghost use Rattle.join_phases.specs.Phases.{is_left};
ghost use Rattle.reconfig_phases.specs.Answers.{answered_unit};
ghost use Rattle.ring_rules.specs.Deeds.{has_numbers};
ghost use Rattle.ring_rules.specs.declared.input.Input.TheVariants as input;
ghost use Rattle.world_rules.specs.Nodes.{comes_above};
ghost use Rattle.unit_desk.specs.UnitEffects.{Does, HasRoom};
ghost use Rattle.unit_rules.specs.Deeds.{frames_of};
ghost use Rattle.unit_rules.specs.Steps.{failover_step};
ghost use Rattle.node_core.specs.UnitParts.{is_above, is_later, is_to_replica, most_fired, site_at};
ghost use Rattle.node_core.specs.Memory.{row_stores};
ghost use Rattle.node_core.specs.Nodes.{FitsInput};
ghost use Rattle.node_core.specs.Rows.{comes_first, comes_later, row_if};

use crate::unit_part::UnitNode;
use fabric_terms::{Body, Message, OutOfMemory, Outbox};
use join_phases::Phase;
use ring_node::{Input, RingNode};
use ring_points::MAX_ARBITRATORS;
use unit_desk::UnitEffects;

/// Whether a frame is one to a replica.
fn is_to_replica(body: &Body) -> bool
    ensures { result ≡ is_to_replica body.now }
{
    matches!(
        body,
        Body::Promise { .. }
            | Body::Sync { .. }
            | Body::Fetch { .. }
            | Body::Piece { .. }
            | Body::Activate { .. }
            | Body::Append { .. }
            | Body::Appended { .. }
    )
}

/// Whether an input may have a row above the ring, of those that come before the ring's own. Most frames are the ring's
/// alone, and whether one of these passes is asked once then.
fn is_above(input: &Input) -> bool
    ensures { result ≡ is_above input.now }
{
    match input {
        Input::Frame(message) => is_to_replica(&message.body),
        _ => true,
    }
}

/// Whether the ring lets the input come to what runs above it: any but a frame that does not pass.
fn comes_above(ring: &RingNode, input: &Input) -> bool
    ensures { result ≡ comes_above ring.now.settings ring.now.ring input.now }
{
    match input {
        Input::Frame(message) => ring.passes(message),
        _ => true,
    }
}

fn has_left(ring: &RingNode) -> bool
    ensures { result ≡ is_left ring.now.ring.phase }
{
    matches!(ring.phase(), Phase::Left(_))
}

/// The row of a command, or of a frame to a replica.
#[tactic(auto, unfolding(unit_rules::specs::Steps::failover_step))]
fn take(
    now: u64,
    ring: &RingNode,
    units: &mut UnitNode,
    input: &Input,
    effects: &mut UnitEffects,
) -> Result<(), OutOfMemory>
    requires fits { FitsInput input.now }
    requires first { is_later input.now ≡ false }
    requires room { HasRoom effects.old }
    ensures does { IfOk result (λ _. Does
        (failover_step (site_at ring.now.settings units.old) now ring.now.ring units.old.state input.now)
        units.new.state effects.old effects.new) }
    ensures domains { units.new.domains ≡ units.old.domains }
    ensures few { length effects.new.out ≤ length effects.old.out + MAX_ARBITRATORS }
    ensures refused { OnErr result ((units.new ≡ units.old) × (effects.new ≡ effects.old)) }
    ensures memory { OnErr result
        (row_stores (site_at ring.now.settings units.old) now ring.now.ring units.old.state input.now ≡ true) }
{
    match input {
        Input::Fire => Ok(()),
        Input::Frame(message) => units.frame_received(ring.me().actor, message, effects),
        Input::Do(command) => units.commanded(now, ring, command, effects),
    }
}

/// A command or a frame to a replica has its row before the ring's own, where it comes above: want of memory leaves
/// both as they were, and comes only where that row stores something or answers a question.
pub(crate) fn take_first(
    now: u64,
    ring: &RingNode,
    units: &mut UnitNode,
    input: &Input,
    effects: &mut UnitEffects,
) -> Result<(), OutOfMemory>
    requires fits { FitsInput input.now }
    requires first { is_later input.now ≡ false }
    requires room { HasRoom effects.old }
    ensures does { IfOk result (λ _. Does
        (row_if (comes_first ring.now.settings now ring.now.ring input.now) (site_at ring.now.settings units.old)
        now ring.now.ring units.old.state input.now) units.new.state effects.old effects.new) }
    ensures numbers { IsTrue (has_numbers ring.now.ring) }
    ensures domains { units.new.domains ≡ units.old.domains }
    ensures few { length effects.new.out ≤ length effects.old.out + MAX_ARBITRATORS }
    ensures refused { OnErr result ((units.new ≡ units.old) × (effects.new ≡ effects.old)) }
    ensures memory { OnErr result ((comes_first ring.now.settings now ring.now.ring input.now &&
        row_stores (site_at ring.now.settings units.old) now ring.now.ring units.old.state input.now) ≡ true) }
{
    if ring.acts(now) && is_above(input) && comes_above(ring, input) {
        take(now, ring, units, input, effects)
    } else {
        Ok(())
    }
}

/// An answer to the manager has its row after the ring's own, where that let it pass and the node has not left.
#[tactic(auto, unfolding(unit_rules::specs::Steps::failover_step))]
pub(crate) fn answer_later(
    now: u64,
    ring: &RingNode,
    comes: bool,
    units: &mut UnitNode,
    message: &Message,
    effects: &mut UnitEffects,
)
    requires sound { IsTrue (is_sound message.now) }
    requires answer { is_some (answered_unit message.now.body) ≡ true }
    requires room { HasRoom effects.old }
    ensures does { Does (row_if (comes_later comes ring.now.ring) (site_at ring.now.settings units.old)
        now ring.now.ring units.old.state (input.Frame message.now)) units.new.state effects.old effects.new }
    ensures domains { units.new.domains ≡ units.old.domains }
    ensures few { length effects.new.out ≤ length effects.old.out + MAX_ARBITRATORS }
{
    if !has_left(ring) && comes {
        units.answered(now, ring, message, effects);
    }
}

/// A firing of what runs above the ring, where the node has not left. What it sends comes behind the messages that are
/// there.
#[tactic(auto, unfolding(unit_rules::specs::Steps::failover_step))]
pub(crate) fn fire_later(
    ring: &RingNode,
    units: &UnitNode,
    out: &mut Outbox,
    frames: &mut Vec<Message>,
)
    requires clear { out.old ≡ [] }
    requires room { vec_len frames.old + most_fired units.now.state ≤ vec_capacity frames.old }
    ensures sent { frames.new.items ≡ frames.old.items ++ from_all ring.now.ring.me
        (frames_of (row_if (not (is_left ring.now.ring.phase)) (site_at ring.now.settings units.now)
        0 ring.now.ring units.now.state input.Fire).deeds) }
    ensures few { vec_len frames.new ≤ vec_len frames.old + most_fired units.now.state }
    ensures room { vec_capacity frames.new ≡ vec_capacity frames.old }
    ensures clear { out.new ≡ [] }
{
    if !has_left(ring) {
        units.fire(ring.me(), out, frames);
    }
}
