ghost use Rattle.std.specs.Prelude.{◌≡◌, ◌≤◌, ◌+◌, length};
ghost use Rattle.std.specs.Option.{option_copied};
ghost use Rattle.unit_rules.specs.Copies.{fetch_received};
ghost use Rattle.unit_rules.specs.ReplicaStates.{entry_at};
ghost use Rattle.unit_desk.specs.UnitEffects.{Does, HasRoom};

use crate::replica_state::ReplicaState;
use fabric_terms::{Body, Payload};
use replica_core::Entry;
use ring_points::{Epoch, Who};
use unit_desk::UnitEffects;

/// The entry with this number. Numbers begin at 1.
pub(crate) fn entry_at(lsn: u64, log: &[Entry]) -> Option<&Entry>
    ensures { option_copied result ≡ entry_at lsn log.now }
{
    if lsn == 0 {
        return None;
    }
    log.get((lsn - 1) as usize)
}

/// Fetch: the replica sends an entry of its log to whoever asks in the promised epoch.
#[tactic(auto, unfolding(unit_rules::specs::Copies::fetch_received))]
pub(crate) fn fetch_received(
    asker: Who,
    epoch: Epoch,
    lsn: u32,
    state: &ReplicaState,
    effects: &mut UnitEffects,
)
    requires { HasRoom effects.old }
    ensures does { Does (fetch_received asker epoch lsn state.now) state.now effects.old effects.new }
    ensures few { length effects.new.out ≤ length effects.old.out + 1 }
{
    if state.replica.promised() != epoch {
        return;
    }
    if let Some(entry) = entry_at(u64::from(lsn), state.replica.log()) {
        let body = Body::Piece {
            partition: state.replica.partition(),
            epoch,
            lsn: entry.lsn,
            entry_epoch: entry.epoch,
            text: Payload::from_slice(entry.bytes.as_slice()),
        };
        effects.out.send(asker, body);
    }
}
