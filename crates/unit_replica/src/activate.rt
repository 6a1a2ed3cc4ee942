ghost use Rattle.std.specs.Prelude.{◌≡◌, ◌≤◌, ◌+◌, ◌∷◌, [], length, true};
ghost use Rattle.replica_core.specs.Roles.{is_member};
ghost use Rattle.unit_rules.specs.Activations.{activate_received, role_begun, say_activated};
ghost use Rattle.unit_rules.specs.ReplicaStates.{last_of};
ghost use Rattle.unit_desk.specs.UnitEffects.{Does, HasRoom, HasRoomFor, Left};

use crate::progress::ReplicationProgress;
use crate::promise::say_older;
use crate::replica_state::{ReplicaState, last_of};
use fabric_terms::{Body, Report};
use replica_core::Role;
use ring_points::{Config, MAX_MEMBERS, Who};
use unit_desk::UnitEffects;

fn say_activated(asker: Who, config: &Config, effects: &mut UnitEffects)
    requires { HasRoomFor 0 1 0 effects.old }
    ensures left { Left (say_activated asker config.now ∷ []) effects.old effects.new }
    ensures few { length effects.new.out ≤ length effects.old.out + 1 }
{
    let body = Body::Activated {
        partition: config.partition,
        epoch: config.epoch,
    };
    effects.out.send(asker, body);
}

/// An Activate, and the node of the replica that takes it.
#[derive(Clone, Copy)]
struct Activation<'a> {
    me: u16,
    asker: Who,
    config: &'a Config,
}

/// The replica begins its new role, and answers Activated. A new primary reports itself too, and begins to track the
/// other members. `last` is the number of the last entry of its log.
fn begin_role(
    activation: Activation,
    role: Role,
    last: u32,
    state: &mut ReplicaState,
    effects: &mut UnitEffects,
)
    requires few { length activation.config.now.members ≤ MAX_MEMBERS }
    requires member { is_member activation.me activation.config.now ≡ true }
    requires last { last ≡ last_of state.old.replica }
    requires room { HasRoomFor 0 1 1 effects.old }
    ensures does { Does (role_begun activation.entry.me activation.entry.asker activation.entry.config.now state.old
        state.old.replica role) state.new effects.old effects.new }
    ensures few { length effects.new.out ≤ length effects.old.out + 1 }
{
    let Activation { me, asker, config } = activation;
    if role == Role::Primary {
        state.progress = Some(ReplicationProgress::first(me, config, last));
        effects
            .told
            .push(Report::IsPrimary(config.partition, config.epoch));
    } else {
        state.progress = None;
    }
    say_activated(asker, config, effects);
}

/// Activate: the replica takes its role in a configuration. A replica that has the role already only answers again.
#[tactic(auto, using(crate::proofs::Calls::calls_stay), unfolding(unit_rules::specs::Activations::activate_received))]
pub(crate) fn activate_received(
    me: u16,
    asker: Who,
    config: &Config,
    state: &mut ReplicaState,
    effects: &mut UnitEffects,
)
    requires few { length config.now.members ≤ MAX_MEMBERS }
    requires room { HasRoom effects.old }
    ensures does { Does (activate_received me asker config.now state.old) state.new effects.old effects.new }
    ensures few { length effects.new.out ≤ length effects.old.out + 1 }
{
    let before = state.replica.role();
    let last = last_of(&state.replica);
    match state.replica.activate(me, config) {
        Ok(role) => {
            if role == before {
                say_activated(asker, config, effects);
            } else {
                let activation = Activation { me, asker, config };
                begin_role(activation, role, last, state, effects);
            }
        }
        Err(refusal) => say_older(asker, config.partition, config.epoch, refusal, effects),
    }
}
