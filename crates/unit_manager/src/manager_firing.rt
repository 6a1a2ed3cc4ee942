ghost use Rattle.std.specs.Prelude.{◌≡◌, ◌≤◌, ◌+◌, ◌*◌, ◌++◌, [], length, vec_capacity, vec_len};
ghost use Rattle.fabric_terms.specs.Sent.{from_all};
ghost use Rattle.unit_rules.specs.Deeds.{frames_of};
ghost use Rattle.unit_manager.specs.Managers.{managed_fired, reconfigs_of};

use crate::manager::Manager;
use fabric_terms::{Message, Outbox};
use reconfig_phases::Reconfig;
use ring_points::{MAX_ARBITRATORS, Who};

/// Each reconfiguration repeats its questions, one reconfiguration after the other.
#[tactic(auto, using(crate::proofs::Firing::fired_more, crate::proofs::Firing::fired_all, crate::proofs::Firing::fired_none))]
fn fire_all(reconfigs: &[(u16, Reconfig)], me: Who, out: &mut Outbox, frames: &mut Vec<Message>)
    requires clear { out.old ≡ [] }
    requires room { vec_len frames.old + MAX_ARBITRATORS * length reconfigs.now ≤ vec_capacity frames.old }
    ensures sent { frames.new.items ≡ frames.old.items ++ from_all me
        (frames_of (managed_fired (reconfigs_of reconfigs.now))) }
    ensures few { length frames.new.items ≤ length frames.old.items + MAX_ARBITRATORS * length reconfigs.now }
    ensures room { vec_capacity frames.new ≡ vec_capacity frames.old }
    ensures clear { out.new ≡ [] }
{
    for entry in reconfigs {
        entry.1.fire(out);
        out.hand_over(me, frames);
    }
}

impl Manager {
    /// A firing: by rising partition, each reconfiguration asks again whoever has not answered, in the name of `me`.
    /// The messages are appended to `frames`, at most `MAX_ARBITRATORS` for a reconfiguration, and `frames` has room
    /// for these. The outbox is used for one reconfiguration at a time.
    pub fn fire(&self, me: Who, out: &mut Outbox, frames: &mut Vec<Message>)
        requires clear { out.old ≡ [] }
        requires room { vec_len frames.old + MAX_ARBITRATORS * length self.now.reconfigs ≤ vec_capacity frames.old }
        ensures sent { frames.new.items ≡ frames.old.items ++ from_all me
            (frames_of (managed_fired self.now.reconfigs)) }
        ensures few { length frames.new.items ≤ length frames.old.items + MAX_ARBITRATORS * length self.now.reconfigs }
        ensures room { vec_capacity frames.new ≡ vec_capacity frames.old }
        ensures clear { out.new ≡ [] }
    {
        fire_all(&self.reconfigs, me, out, frames);
    }
}
