ghost use Rattle.std.specs.Prelude.{◌≡◌, ◌≤◌, ◌+◌, IfOk, OnErr, IsTrue, length, true};
ghost use Rattle.fabric_terms.specs.Messages.{is_sound_body};
ghost use Rattle.unit_desk.specs.UnitEffects.{Does, HasRoom};
ghost use Rattle.unit_replica.specs.Memory.{stores};
ghost use Rattle.unit_replica.specs.Tables.{row_of};

use crate::activate::activate_received;
use crate::append::append_received;
use crate::fetch::fetch_received;
use crate::piece::piece_received;
use crate::promise::promise_received;
use crate::replica_state::ReplicaState;
use crate::sync::sync_received;
use crate::write::appended_received;
use fabric_terms::{Body, OutOfMemory};
use ring_points::Who;
use unit_desk::UnitEffects;
use unit_rules::CatchUp;

/// The row of a frame at a replica. A frame of another kind changes nothing. It is an error if memory is short for an
/// entry, and then nothing changes.
pub(crate) fn row_of(
    me: u16,
    from: Who,
    body: &Body,
    state: &mut ReplicaState,
    effects: &mut UnitEffects,
) -> Result<(), OutOfMemory>
    requires sound { IsTrue (is_sound_body body.now) }
    requires room { HasRoom effects.old }
    ensures does { IfOk result (λ _. Does (row_of me from body.now state.old) state.new effects.old effects.new) }
    ensures few { length effects.new.out ≤ length effects.old.out + 1 }
    ensures refused { OnErr result ((state.new ≡ state.old) × (effects.new ≡ effects.old)) }
    ensures memory { OnErr result (stores (row_of me from body.now state.old) ≡ true) }
{
    match body {
        Body::Promise { epoch, .. } => promise_received(from, *epoch, state, effects),
        Body::Sync {
            epoch,
            origin,
            last,
            ..
        } => {
            let catch_up = CatchUp {
                epoch: *epoch,
                origin: *origin,
                last: *last,
                asker: from,
            };
            sync_received(me, catch_up, state, effects);
        }
        Body::Fetch { epoch, lsn, .. } => fetch_received(from, *epoch, *lsn, state, effects),
        Body::Piece {
            epoch,
            lsn,
            entry_epoch,
            text,
            ..
        } => return piece_received(*epoch, *lsn, *entry_epoch, text, state, effects),
        Body::Activate { config } => activate_received(me, from, config, state, effects),
        Body::Append {
            epoch,
            lsn,
            text,
            ..
        } => return append_received(from, *epoch, *lsn, text, state, effects),
        Body::Appended { epoch, last, .. } => {
            appended_received(from.actor, *epoch, *last, state, effects);
        }
        _ => {}
    }
    Ok(())
}
