ghost use Rattle.std.specs.Prelude.{◌≡◌, ◌≤◌, ◌+◌, ◌*◌, ◌++◌, [], length, vec_capacity, vec_len};
ghost use Rattle.fabric_terms.specs.Sent.{from_all};
ghost use Rattle.unit_rules.specs.Deeds.{frames_of};
ghost use Rattle.unit_replica.specs.Tables.{fired};

use crate::progress::MAX_PEERS;
use crate::replica_state::ReplicaState;
use crate::replica_states::ReplicaStates;
use crate::send::state_fired;
use fabric_terms::{Message, Outbox};
use ring_points::Who;
use std::collections::BTreeMap;

/// The partition of the first replica that let something go which is not freed yet.
fn releasing(states: &BTreeMap<u16, ReplicaState>) -> Option<u16> {
    for (partition, state) in states {
        if state.has_released() {
            return Some(*partition);
        }
    }
    None
}

impl ReplicaStates {
    /// A firing: each primary sends each other member its next entry, if its log has that entry. The messages are
    /// appended to `frames` as from the instance `from`, by rising partition. A replica sends at most one message to
    /// each other member, and `frames` has room for these. The outbox is used for one replica at a time.
    pub fn fire(&self, from: Who, out: &mut Outbox, frames: &mut Vec<Message>)
        requires clear { out.old ≡ [] }
        requires room { vec_len frames.old + MAX_PEERS * length self.now ≤ vec_capacity frames.old }
        ensures sent { frames.new.items ≡ frames.old.items ++ from_all from (frames_of (fired self.now)) }
        ensures few { length frames.new.items ≤ length frames.old.items + MAX_PEERS * length self.now }
        ensures room { vec_capacity frames.new ≡ vec_capacity frames.old }
        ensures clear { out.new ≡ [] }
    {
        for state in self.map.values() {
            state_fired(state, out);
            out.hand_over(from, frames);
        }
    }

    /// Frees some of what the first replica let go that let something go. A node does it at each firing, so that it
    /// frees all also where no frame reaches the replica. Where nothing is to be freed, a replica costs three
    /// comparisons.
    pub fn free_released(&mut self)
        ensures { self.new ≡ self.old }
    {
        let Some(partition) = releasing(&self.map) else {
            return;
        };
        let Some(state) = self.map.get_mut(&partition) else {
            return;
        };
        state.free_released();
    }
}
