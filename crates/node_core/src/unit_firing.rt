ghost use Rattle.std.specs.Prelude.{◌≡◌, ◌≤◌, ◌+◌, ◌++◌, [], vec_capacity, vec_len};
ghost use Rattle.fabric_terms.specs.Sent.{from_all};
ghost use Rattle.unit_rules.specs.Deeds.{frames_of};
ghost use Rattle.unit_rules.specs.Steps.{fired};
ghost use Rattle.node_core.specs.UnitParts.{most_fired};

use crate::unit_part::UnitNode;
use fabric_terms::{Message, Outbox};
use ring_points::Who;

impl UnitNode {
    /// A firing: the reconfigurations, then the replicas, each by rising partition. What they send comes behind the
    /// messages that are there, in the name of `me`: at most one to each arbitrator of a reconfiguration, and one to each
    /// other member of a replica, for which there is room. The outbox is lent for one of them at a time.
    #[tactic(auto, using(crate::proofs::UnitRows::fired_whole))]
    pub fn fire(&self, me: Who, out: &mut Outbox, frames: &mut Vec<Message>)
        requires clear { out.old ≡ [] }
        requires room { vec_len frames.old + most_fired self.now.state ≤ vec_capacity frames.old }
        ensures sent { frames.new.items ≡ frames.old.items ++ from_all me (frames_of (fired self.now.state)) }
        ensures few { vec_len frames.new ≤ vec_len frames.old + most_fired self.now.state }
        ensures room { vec_capacity frames.new ≡ vec_capacity frames.old }
        ensures clear { out.new ≡ [] }
    {
        self.manager.fire(me, out, frames);
        self.states.fire(me, out, frames);
    }

    /// Frees some of what the replicas let go.
    pub fn free_released(&mut self)
        ensures { self.new ≡ self.old }
    {
        self.states.free_released();
    }
}
