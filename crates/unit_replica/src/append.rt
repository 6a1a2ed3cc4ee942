ghost use Rattle.std.specs.Prelude.{◌≡◌, ◌≤◌, ◌+◌, ◌∷◌, [], IfOk, OnErr, length, true};
ghost use Rattle.unit_rules.specs.Writes.{accepted, append_received, say_appended};
ghost use Rattle.unit_replica.specs.Memory.{stores};
ghost use Rattle.unit_desk.specs.UnitEffects.{Does, HasRoom, HasRoomFor, Left};

use crate::named_replica::NamedReplica;
use crate::promise::say_older;
use crate::replica_state::{ReplicaState, last_of};
use fabric_terms::{Body, OutOfMemory, Payload, Record, Report};
use replica_core::{Done, ReplicaRefusal};
use ring_points::{Epoch, Who};
use unit_desk::UnitEffects;

/// Records a new entry, and reports it accepted.
pub(crate) fn accept(
    partition: u16,
    epoch: Epoch,
    lsn: u32,
    text: &Payload,
    effects: &mut UnitEffects,
)
    requires { HasRoomFor 1 0 1 effects.old }
    ensures left { Left (accepted partition epoch lsn text.now) effects.old effects.new }
    ensures few { length effects.new.out ≤ length effects.old.out }
{
    effects.records.push(Record::Wrote {
        partition,
        epoch,
        lsn,
        text: text.copy(),
    });
    effects.told.push(Report::Accepted(partition, epoch, lsn));
}

fn say_appended(asker: Who, epoch: Epoch, replica: &NamedReplica, effects: &mut UnitEffects)
    requires { HasRoomFor 0 1 0 effects.old }
    ensures left { Left (say_appended asker epoch replica.now ∷ []) effects.old effects.new }
    ensures few { length effects.new.out ≤ length effects.old.out + 1 }
{
    let body = Body::Appended {
        partition: replica.partition(),
        epoch,
        last: last_of(replica),
    };
    effects.out.send(asker, body);
}

/// Append: the replica adds the entry if it is the next one, and answers with its last entry if its log is of the
/// epoch. It is an error if memory is short for a new entry, and then nothing changes.
#[tactic(auto, using(crate::proofs::Calls::calls_stay, crate::proofs::Stored::entry_stored), unfolding(unit_rules::specs::Writes::append_received))]
pub(crate) fn append_received(
    asker: Who,
    epoch: Epoch,
    lsn: u32,
    text: &Payload,
    state: &mut ReplicaState,
    effects: &mut UnitEffects,
) -> Result<(), OutOfMemory>
    requires { HasRoom effects.old }
    ensures does { IfOk result (λ _. Does (append_received asker epoch lsn text.now state.old)
        state.new effects.old effects.new) }
    ensures few { length effects.new.out ≤ length effects.old.out + 1 }
    ensures refused { OnErr result ((state.new ≡ state.old) × (effects.new ≡ effects.old)) }
    ensures memory { OnErr result (stores (append_received asker epoch lsn text.now state.old) ≡ true) }
{
    let partition = state.replica.partition();
    match state.replica.append(epoch, lsn, text.as_slice()) {
        Ok(Done::New) => {
            accept(partition, epoch, lsn, text, effects);
            say_appended(asker, epoch, &state.replica, effects);
            state.name_entries();
            Ok(())
        }
        Ok(Done::Held) => {
            say_appended(asker, epoch, &state.replica, effects);
            Ok(())
        }
        Err(ReplicaRefusal::Gap(_)) => {
            if state.replica.at() == epoch {
                say_appended(asker, epoch, &state.replica, effects);
            }
            Ok(())
        }
        Err(ReplicaRefusal::OutOfMemory) => Err(OutOfMemory),
        Err(refusal) => {
            say_older(asker, partition, epoch, refusal, effects);
            Ok(())
        }
    }
}
