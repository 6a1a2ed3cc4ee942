ghost use Rattle.std.specs.Prelude.{◌≤◌, ◌+◌, ◌∷◌, [], length};
ghost use Rattle.fabric_terms.specs.declared.message.Body.TheVariants as body;
ghost use Rattle.unit_rules.specs.Deeds.{Deed};
ghost use Rattle.unit_rules.specs.Promises.{promise_received, raise_told, say_older};
ghost use Rattle.unit_rules.specs.ReplicaStates.{last_of};
ghost use Rattle.unit_desk.specs.UnitEffects.{Does, HasRoom, HasRoomFor, Left};

use crate::named_replica::NamedReplica;
use crate::replica_state::{ReplicaState, last_of};
use fabric_terms::{Body, Record, Report};
use replica_core::{Done, ReplicaRefusal};
use ring_points::{Epoch, Who};
use unit_desk::UnitEffects;

/// Answers Older where a greater epoch is promised. No other refusal is answered.
pub(crate) fn say_older(
    asker: Who,
    partition: u16,
    epoch: Epoch,
    refusal: ReplicaRefusal,
    effects: &mut UnitEffects,
)
    requires { HasRoomFor 0 1 0 effects.old }
    ensures left { Left (say_older asker partition epoch refusal) effects.old effects.new }
    ensures few { length effects.new.out ≤ length effects.old.out + 1 }
{
    if let ReplicaRefusal::Older(kept) = refusal {
        let body = Body::Older {
            partition,
            epoch,
            kept,
        };
        effects.out.send(asker, body);
    }
}

/// Records and reports a promise, if it is a new one.
pub(crate) fn tell_raised(partition: u16, epoch: Epoch, done: Done, effects: &mut UnitEffects)
    requires { HasRoomFor 1 0 1 effects.old }
    ensures left { Left (raise_told partition epoch done) effects.old effects.new }
    ensures few { length effects.new.out ≤ length effects.old.out }
{
    if done == Done::New {
        effects
            .records
            .push(Record::PromisedAt { partition, epoch });
        effects.told.push(Report::Promised(partition, epoch));
    }
}

/// Answers with the epoch of the log and its last entry.
fn say_promised(asker: Who, epoch: Epoch, replica: &NamedReplica, effects: &mut UnitEffects)
    requires { HasRoomFor 0 1 0 effects.old }
    ensures left { Left (Deed.Send asker
        (body.Promised replica.now.partition epoch replica.now.at (last_of replica.now)) ∷ []) effects.old effects.new }
    ensures few { length effects.new.out ≤ length effects.old.out + 1 }
{
    let body = Body::Promised {
        partition: replica.partition(),
        epoch,
        at: replica.at(),
        last: last_of(replica),
    };
    effects.out.send(asker, body);
}

/// Promise: the replica refuses every lower epoch from now on, and answers with the state of its log.
#[tactic(auto, unfolding(unit_rules::specs::Promises::promise_received))]
pub(crate) fn promise_received(
    asker: Who,
    epoch: Epoch,
    state: &mut ReplicaState,
    effects: &mut UnitEffects,
)
    requires { HasRoom effects.old }
    ensures does { Does (promise_received asker epoch state.old) state.new effects.old effects.new }
    ensures few { length effects.new.out ≤ length effects.old.out + 1 }
{
    let partition = state.replica.partition();
    match state.replica.promise(epoch) {
        Ok(done) => {
            tell_raised(partition, epoch, done, effects);
            say_promised(asker, epoch, &state.replica, effects);
        }
        Err(refusal) => say_older(asker, partition, epoch, refusal, effects),
    }
}
