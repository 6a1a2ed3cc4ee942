ghost use Rattle.std.specs.Prelude.{◌≡◌, ◌==◌, ◌++◌, ◌∷◌, [], OnOk, Some, if◌then◌else◌, length, map, vec_items};
ghost use Rattle.fabric_turns.specs.Opening.{RecallsAll, RecallsOne, ReadsFor, OpensAll};
ghost use Rattle.world_rules.specs.Events.{is_arbiter_actor};

use edge_io::{EdgeRefusal, Outside};
use fabric_terms::OutOfMemory;
use keep_log::{Kept, KeptError, read_records};
use ring_points::ARBITRATORS;
use std::alloc::Global;
use turn_rules::{Plan, StopCause};

/// Whether all of so many records that amount to this are of the actor's kind.
fn is_of_kind(actor: u16, kept: &Kept, count: usize) -> bool
    ensures { result ≡ (if is_arbiter_actor actor then length kept.now.arbiter == count else length kept.now.arbiter ==
        0) }
{
    let arbiters = kept.arbiter.as_slice().len();
    if actor > ARBITRATORS {
        arbiters == count
    } else {
        arbiters == 0
    }
}

/// What an actor's records amount to. The first bad record is named, counted from 1; a good list of the other kind of
/// actor is bad from the first.
fn read_for(alloc: Global, actor: u16, records: &[Vec<u8>]) -> Result<Kept, StopCause>
    ensures { ReadsFor actor (map vec_items records.now) result }
{
    match read_records(alloc, records) {
        Err(KeptError::BadRecord(i)) => Err(StopCause::BadKeep(i)),
        Err(KeptError::OutOfMemory) => Err(StopCause::OutOfMemory),
        Ok(kept) => {
            if is_of_kind(actor, &kept, records.len()) {
                Ok(kept)
            } else {
                Err(StopCause::BadKeep(1))
            }
        }
    }
}

/// What is kept of an actor. `KeepFault` comes where the keeper fails, and `BadKeep` names the first bad record, counted
/// from 1.
pub fn recall<O: Outside>(outside: &mut O, alloc: Global, actor: u16) -> Result<Kept, StopCause>
    ensures { RecallsOne actor (O.told outside.old) result (O.told outside.new) }
{
    match outside.records(actor) {
        Err(EdgeRefusal::Failed) => Err(StopCause::KeepFault),
        Err(EdgeRefusal::OutOfMemory) => Err(StopCause::OutOfMemory),
        Ok(records) => read_for(alloc, actor, records.as_slice()),
    }
}

/// Adds what is kept of an actor.
fn push_kept(kept: Kept, into: &mut Vec<Option<Kept>>) -> Result<(), OutOfMemory>
    ensures { OnOk result (into.new.items ≡ into.old.items ++ Some kept ∷ []) }
{
    into.push(Some(kept))?;
    Ok(())
}

/// What is kept of each actor.
pub(crate) fn recall_all<O: Outside>(
    outside: &mut O,
    alloc: Global,
    plan: &Plan,
) -> Result<Vec<Option<Kept>>, StopCause>
    ensures { RecallsAll plan.now (O.told outside.old) result (O.told outside.new) }
{
    let mut all = Vec::new(alloc);
    for place in 0..plan.len() {
        let kept = recall(outside, alloc, plan.actor_at(place))?;
        match push_kept(kept, &mut all) {
            Ok(()) => {}
            Err(_) => return Err(StopCause::OutOfMemory),
        }
    }
    Ok(all)
}

/// Opens the endpoint of each actor.
pub(crate) fn open_all<O: Outside>(outside: &mut O, plan: &Plan) -> Result<(), StopCause>
    ensures { OpensAll plan.now (O.told outside.old) result (O.told outside.new) }
{
    for place in 0..plan.len() {
        match outside.listen(plan.actor_at(place), plan.address_at(place)) {
            Ok(()) => {}
            Err(EdgeRefusal::Failed) => return Err(StopCause::LinkFault),
            Err(EdgeRefusal::OutOfMemory) => return Err(StopCause::OutOfMemory),
        }
    }
    Ok(())
}
