ghost use Rattle.std.specs.Prelude.{◌≡◌, ◌≤◌, ◌+◌, ◌∷◌, ◌++◌, [], Some, IfOk, OnErr, length, map, true};
ghost use Rattle.fabric_terms.specs.declared.report.Report.TheVariants.{Refused};
ghost use Rattle.unit_rules.specs.Deeds.{Tell};
ghost use Rattle.unit_rules.specs.ReplicaStates as states;
ghost use Rattle.unit_rules.specs.ReplicaStates.{last_of};
ghost use Rattle.unit_rules.specs.Writes.{accepted, append_to, appended_received, committed, write_commanded};
ghost use Rattle.unit_desk.specs.UnitEffects.{Does, HasRoom, HasRoomFor, Left};
ghost use Rattle.unit_replica.specs.Memory.{stores};
ghost use Rattle.unit_replica.specs.Rows.{spread};

use crate::append::accept;
use crate::named_replica::NamedReplica;
use crate::progress::{MAX_PEERS, ReplicationProgress};
use crate::replica_state::{ReplicaState, last_of};
use crate::send::{append_to_all, takes_writes};
use fabric_terms::{OutOfMemory, Payload, Reason, Report, Verb};
use replica_core::ReplicaRefusal;
use ring_points::Epoch;
use unit_desk::UnitEffects;

/// Commits what a majority has confirmed, and reports it if it is more than before.
fn commit(state: &mut ReplicaState, effects: &mut UnitEffects)
    requires { HasRoomFor 0 0 1 effects.old }
    ensures does { (l : states.ReplicationProgress) → state.old.progress ≡ Some l →
        Does (committed l state.old) state.new effects.old effects.new }
    ensures few { length effects.new.out ≤ length effects.old.out }
{
    let Some(progress) = &mut state.progress else {
        return;
    };
    let lsn = progress.most_confirmed(last_of(&state.replica));
    if progress.committed() < lsn {
        progress.commit(lsn);
        let partition = state.replica.partition();
        effects
            .told
            .push(Report::Committed(partition, state.replica.at(), lsn));
        state.name_entries();
    }
}

/// Appended: the primary of the epoch notes which entries the member has.
#[tactic(auto, unfolding(unit_rules::specs::Writes::appended_received))]
pub(crate) fn appended_received(
    node: u16,
    epoch: Epoch,
    last: u32,
    state: &mut ReplicaState,
    effects: &mut UnitEffects,
)
    requires { HasRoom effects.old }
    ensures does { Does (appended_received node epoch last state.old) state.new effects.old effects.new }
    ensures few { length effects.new.out ≤ length effects.old.out }
{
    if !takes_writes(&state.replica) || state.replica.at() != epoch {
        return;
    }
    let own = last_of(&state.replica);
    let Some(progress) = &mut state.progress else {
        return;
    };
    progress.confirm(node, last, own);
    commit(state, effects);
}

/// Records and reports the new last entry, and sends it to each other member.
fn tell_written(
    text: &Payload,
    progress: &ReplicationProgress,
    replica: &NamedReplica,
    effects: &mut UnitEffects,
)
    requires { HasRoom effects.old }
    ensures left { Left (accepted replica.now.partition replica.now.at (last_of replica.now) text.now ++ map
        (append_to replica.now.at replica.now (last_of replica.now) text.now) progress.now.peers)
        effects.old effects.new }
    ensures few { length effects.new.out ≤ length effects.old.out + MAX_PEERS }
    ensures room { HasRoomFor 0 0 1 effects.new }
{
    let epoch = replica.at();
    let lsn = last_of(replica);
    accept(replica.partition(), epoch, lsn, text, effects);
    append_to_all(
        epoch,
        replica,
        lsn,
        text.as_slice(),
        progress.peers(),
        &mut effects.out,
    );
}

/// Reports the new last entry, sends it to each other member, and commits it if the primary alone is a majority.
fn spread(text: &Payload, state: &mut ReplicaState, effects: &mut UnitEffects)
    requires { HasRoom effects.old }
    ensures does { Does (spread text.now state.old.progress state.old) state.new effects.old effects.new }
    ensures few { length effects.new.out ≤ length effects.old.out + MAX_PEERS }
{
    let Some(progress) = &state.progress else {
        return;
    };
    tell_written(text, progress, &state.replica, effects);
    commit(state, effects);
}

/// Refuses a command, which then changes nothing.
pub(crate) fn refuse(question: Verb, reason: Reason, effects: &mut UnitEffects)
    requires { HasRoomFor 0 0 1 effects.old }
    ensures left { Left (Tell (Refused question reason) ∷ []) effects.old effects.new }
    ensures few { length effects.new.out ≤ length effects.old.out }
{
    effects.told.push(Report::Refused(question, reason));
}

/// Write: the primary adds an entry, and sends it to each other member. It is refused if the replica takes no writes,
/// and if the log is full. It is an error if memory is short for a new entry, and then nothing changes.
#[tactic(auto, unfolding(unit_rules::specs::Writes::write_commanded))]
pub(crate) fn write_commanded(
    text: &Payload,
    state: &mut ReplicaState,
    effects: &mut UnitEffects,
) -> Result<(), OutOfMemory>
    requires { HasRoom effects.old }
    ensures does { IfOk result (λ _. Does (write_commanded text.now state.old) state.new effects.old effects.new) }
    ensures few { length effects.new.out ≤ length effects.old.out + MAX_PEERS }
    ensures refused { OnErr result ((state.new ≡ state.old) × (effects.new ≡ effects.old)) }
    ensures memory { OnErr result (stores (write_commanded text.now state.old) ≡ true) }
{
    if !takes_writes(&state.replica) || state.progress.is_none() {
        refuse(Verb::Write, Reason::NotPrimary, effects);
        return Ok(());
    }
    let epoch = state.replica.at();
    let lsn = last_of(&state.replica) + 1;
    match state.replica.append(epoch, lsn, text.as_slice()) {
        Ok(_) => {
            spread(text, state, effects);
            Ok(())
        }
        Err(ReplicaRefusal::LogFull) => {
            refuse(Verb::Write, Reason::Full, effects);
            Ok(())
        }
        Err(ReplicaRefusal::OutOfMemory) => Err(OutOfMemory),
        Err(_) => Ok(()),
    }
}
