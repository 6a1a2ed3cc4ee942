ghost use Rattle.std.specs.Prelude.{◌≡◌, ◌≤◌, ◌+◌, ◌∷◌, [], Some, false, length};
ghost use Rattle.fabric_terms.specs.declared.message.Body.TheVariants as body;
ghost use Rattle.replica_core.specs.Calls.{adopt_own_call};
ghost use Rattle.ring_points.specs.Epochs.{is_older};
ghost use Rattle.unit_rules.specs.Copies.{adoption, copy_begun, fetch_next, own_adopted, sync_received};
ghost use Rattle.unit_rules.specs.Deeds.{Deed};
ghost use Rattle.unit_rules.specs.ReplicaStates.{last_of};
ghost use Rattle.unit_desk.specs.UnitEffects.{Does, HasRoom, HasRoomFor, Left};

use crate::named_replica::NamedReplica;
use crate::promise::{say_older, tell_raised};
use crate::replica_state::{ReplicaState, last_of};
use fabric_terms::{Body, Record, Report};
use ring_points::{MAX_LOG_ENTRIES, Who};
use unit_desk::UnitEffects;
use unit_rules::CatchUp;

/// Records, reports and answers that the log is now that of the epoch. An empty log is not reported, and does not count
/// as the replica's own.
pub(crate) fn tell_adopted(partition: u16, catch_up: CatchUp, own: bool, effects: &mut UnitEffects)
    requires { HasRoomFor 1 1 1 effects.old }
    ensures left { Left (adoption partition catch_up own) effects.old effects.new }
    ensures few { length effects.new.out ≤ length effects.old.out + 1 }
{
    let epoch = catch_up.epoch;
    let last = catch_up.last;
    effects.records.push(Record::AdoptedAt {
        partition,
        epoch,
        last,
        own: own && last > 0,
    });
    if last > 0 {
        effects.told.push(Report::Adopted(partition, epoch, last));
    }
    say_adopted(catch_up, partition, last, effects);
}

fn say_adopted(catch_up: CatchUp, partition: u16, last: u32, effects: &mut UnitEffects)
    requires { HasRoomFor 0 1 0 effects.old }
    ensures left { Left (Deed.Send catch_up.asker (body.Adopted partition catch_up.epoch last) ∷ [])
        effects.old effects.new }
    ensures few { length effects.new.out ≤ length effects.old.out + 1 }
{
    let body = Body::Adopted {
        partition,
        epoch: catch_up.epoch,
        last,
    };
    effects.out.send(catch_up.asker, body);
}

/// Asks the origin for the next entry of its log.
pub(crate) fn fetch_next(catch_up: CatchUp, replica: &NamedReplica, effects: &mut UnitEffects)
    requires { HasRoomFor 0 1 0 effects.old }
    ensures left { Left (fetch_next catch_up replica.now ∷ []) effects.old effects.new }
    ensures few { length effects.new.out ≤ length effects.old.out + 1 }
{
    let origin = Who {
        actor: catch_up.origin,
        instance: 0,
    };
    let body = Body::Fetch {
        partition: replica.partition(),
        epoch: catch_up.epoch,
        lsn: replica.collected() + 1,
    };
    effects.out.send(origin, body);
}

/// Adopts the replica's own log, or the empty log. Nothing happens if the own log has another last entry.
fn adopt_own(catch_up: CatchUp, state: &mut ReplicaState, effects: &mut UnitEffects)
    requires { HasRoomFor 1 1 1 effects.old }
    ensures does { Does (own_adopted catch_up state.old (adopt_own_call catch_up.epoch catch_up.last state.old.replica))
        state.new effects.old effects.new }
    ensures few { length effects.new.out ≤ length effects.old.out + 1 }
{
    let partition = state.replica.partition();
    if state
        .replica
        .adopt_own(catch_up.epoch, catch_up.last)
        .is_ok()
    {
        tell_adopted(partition, catch_up, true, effects);
    }
}

/// The replica is idle until it gets a role, and takes a log: its own or an empty one at once, that of another node
/// entry by entry.
#[tactic(auto, using(crate::proofs::Calls::idle_taken))]
fn begin_copy(me: u16, catch_up: CatchUp, state: &mut ReplicaState, effects: &mut UnitEffects)
    requires last { catch_up.last ≤ MAX_LOG_ENTRIES }
    requires promised { is_older catch_up.epoch state.old.replica.promised ≡ false }
    requires room { HasRoomFor 1 1 1 effects.old }
    ensures does { Does (copy_begun me catch_up state.old) state.new effects.old effects.new }
    ensures few { length effects.new.out ≤ length effects.old.out + 1 }
{
    match state.replica.idle(catch_up.epoch) {
        Ok(_) => {}
        Err(_) => unreachable!(), // Only a greater promise refuses it.
    }
    state.catch_up = Some(catch_up);
    if catch_up.last == 0 || catch_up.origin == me {
        adopt_own(catch_up, state, effects);
    } else {
        fetch_next(catch_up, &state.replica, effects);
    }
}

/// Sync: the replica promises the epoch, and takes its log. If it has that log already, it only answers so.
#[tactic(auto, using(crate::proofs::Calls::promise_taken), unfolding(unit_rules::specs::Copies::sync_received))]
pub(crate) fn sync_received(
    me: u16,
    catch_up: CatchUp,
    state: &mut ReplicaState,
    effects: &mut UnitEffects,
)
    requires last { catch_up.last ≤ MAX_LOG_ENTRIES }
    requires room { HasRoom effects.old }
    ensures does { Does (sync_received me catch_up state.old) state.new effects.old effects.new }
    ensures few { length effects.new.out ≤ length effects.old.out + 1 }
{
    let partition = state.replica.partition();
    match state.replica.promise(catch_up.epoch) {
        Ok(done) => {
            tell_raised(partition, catch_up.epoch, done, effects);
            if state.replica.at() == catch_up.epoch {
                say_adopted(catch_up, partition, last_of(&state.replica), effects);
            } else {
                begin_copy(me, catch_up, state, effects);
            }
        }
        Err(refusal) => say_older(catch_up.asker, partition, catch_up.epoch, refusal, effects),
    }
}
