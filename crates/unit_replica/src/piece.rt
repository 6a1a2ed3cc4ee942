ghost use Rattle.std.specs.Prelude.{◌≡◌, ◌≤◌, ◌+◌, IfOk, OnErr, length, true};
ghost use Rattle.replica_core.specs.Calls.{adopt_call};
ghost use Rattle.unit_rules.specs.Copies.{copy_goes_on, is_wanted, piece_collected, piece_received};
ghost use Rattle.replica_core.specs.declared.entry.Entry.{Entry};
ghost use Rattle.unit_replica.specs.Memory.{stores};
ghost use Rattle.unit_desk.specs.UnitEffects.{Does, HasRoom, HasRoomFor, Left};

use crate::named_replica::NamedReplica;
use crate::replica_state::ReplicaState;
use crate::sync::{fetch_next, tell_adopted};
use fabric_terms::{OutOfMemory, Payload, Record};
use replica_core::ReplicaRefusal;
use ring_points::{Epoch, MAX_LOG_ENTRIES};
use unit_desk::UnitEffects;
use unit_rules::CatchUp;

/// Whether the replica still needs an entry of this epoch and number for its Sync.
fn is_wanted(catch_up: CatchUp, epoch: Epoch, lsn: u32, replica: &NamedReplica) -> bool
    ensures { result ≡ is_wanted catch_up epoch lsn replica.now }
{
    catch_up.epoch == epoch && replica.at() != epoch && 1 <= lsn && lsn <= catch_up.last
}

/// Goes on after an entry was collected: adopts the log after the last entry, and else asks for the next one.
fn go_on(catch_up: CatchUp, lsn: u32, replica: &NamedReplica, effects: &mut UnitEffects)
    requires { HasRoomFor 1 1 1 effects.old }
    ensures left { Left (copy_goes_on catch_up lsn replica.now) effects.old effects.new }
    ensures few { length effects.new.out ≤ length effects.old.out + 1 }
{
    if lsn == catch_up.last {
        tell_adopted(replica.partition(), catch_up, false, effects);
    } else {
        fetch_next(catch_up, replica, effects);
    }
}

/// Collects an entry, and goes on with the copy. It is an error if memory is short for the entry, and then nothing
/// changes.
#[tactic(auto, using(crate::proofs::Stored::entry_stored))]
fn collect(
    catch_up: CatchUp,
    entry_epoch: Epoch,
    lsn: u32,
    text: &Payload,
    state: &mut ReplicaState,
    effects: &mut UnitEffects,
) -> Result<(), OutOfMemory>
    requires lsn { lsn ≤ MAX_LOG_ENTRIES }
    requires room { HasRoomFor 2 1 1 effects.old }
    ensures does { let entry : Entry = record { epoch = entry_epoch; lsn = lsn; bytes = text.now } in
        IfOk result (λ _. Does (piece_collected catch_up entry state.old
        (adopt_call catch_up.epoch entry catch_up.last state.old.replica)) state.new effects.old effects.new) }
    ensures few { length effects.new.out ≤ length effects.old.out + 1 }
    ensures refused { OnErr result ((state.new ≡ state.old) × (effects.new ≡ effects.old)) }
    ensures memory { let entry : Entry = record { epoch = entry_epoch; lsn = lsn; bytes = text.now } in
        OnErr result (stores (piece_collected catch_up entry state.old
        (adopt_call catch_up.epoch entry catch_up.last state.old.replica)) ≡ true) }
{
    let adopted = state.replica.adopt_bytes(
        catch_up.epoch,
        entry_epoch,
        lsn,
        text.as_slice(),
        catch_up.last,
    );
    match adopted {
        Ok(_) => {
            effects.records.push(Record::Incoming {
                partition: state.replica.partition(),
                epoch: catch_up.epoch,
                lsn,
                entry_epoch,
                text: text.copy(),
            });
            go_on(catch_up, lsn, &state.replica, effects);
            Ok(())
        }
        Err(ReplicaRefusal::OutOfMemory) => Err(OutOfMemory),
        Err(_) => Ok(()),
    }
}

/// Piece: the replica collects an entry of the log that its last Sync named. With the last entry the collected entries
/// become its log. It is an error if memory is short for the entry, and then nothing changes.
#[tactic(auto, unfolding(unit_rules::specs::Copies::piece_received))]
pub(crate) fn piece_received(
    epoch: Epoch,
    lsn: u32,
    entry_epoch: Epoch,
    text: &Payload,
    state: &mut ReplicaState,
    effects: &mut UnitEffects,
) -> Result<(), OutOfMemory>
    requires { HasRoom effects.old }
    ensures does { IfOk result (λ _. Does
        (piece_received epoch (record { epoch = entry_epoch; lsn = lsn; bytes = text.now }) state.old)
        state.new effects.old effects.new) }
    ensures few { length effects.new.out ≤ length effects.old.out + 1 }
    ensures refused { OnErr result ((state.new ≡ state.old) × (effects.new ≡ effects.old)) }
    ensures memory { OnErr result (stores
        (piece_received epoch (record { epoch = entry_epoch; lsn = lsn; bytes = text.now }) state.old) ≡ true) }
{
    let Some(catch_up) = state.catch_up else {
        return Ok(());
    };
    if !is_wanted(catch_up, epoch, lsn, &state.replica) {
        return Ok(());
    }
    collect(catch_up, entry_epoch, lsn, text, state, effects)
}
