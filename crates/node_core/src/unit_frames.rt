ghost use Rattle.std.specs.Prelude.{◌≡◌, ◌≤◌, ◌+◌, ℕ, IfOk, OnErr, IsTrue, false, length, is_some, true};
ghost use Rattle.fabric_terms.specs.Messages.{is_sound};
ghost use Rattle.reconfig_phases.specs.Answers.{answered_unit};
ghost use Rattle.ring_rules.specs.Rings.{Ring};
ghost use Rattle.unit_desk.specs.UnitEffects.{Does, HasRoom};
ghost use Rattle.unit_rules.specs.Loads.{Site};
ghost use Rattle.unit_rules.specs.Steps.{frame_row};
ghost use Rattle.node_core.specs.Memory.{grows_above};
ghost use Rattle.node_core.specs.UnitParts.{site_at};

use crate::unit_loads::{NO_NODE, fill_unloaded};
use crate::unit_part::UnitNode;
use fabric_terms::{Message, OutOfMemory};
use ring_node::RingNode;
use ring_points::{MAX_ARBITRATORS, MAX_NODES};
use unit_desk::UnitEffects;

impl UnitNode {
    /// The row of a frame to a replica of the node with this number; any other frame that is no answer to a manager
    /// changes nothing. It reads nothing of the ring but who it is. It is an error where memory is short for an entry
    /// or a replica that the row stores, and then nothing is changed: no late frame wants memory.
    #[tactic(auto, using(crate::proofs::UnitRows::replica_row, crate::proofs::Storing::replica_grows))]
    pub fn frame_received(
        &mut self,
        me: u16,
        message: &Message,
        effects: &mut UnitEffects,
    ) -> Result<(), OutOfMemory>
        requires sound { IsTrue (is_sound message.now) }
        requires no_answer { is_some (answered_unit message.now.body) ≡ false }
        requires room { HasRoom effects.old }
        ensures does { IfOk result (λ _. (c : Site) (now : ℕ) (r : Ring) → r.me.actor ≡ me →
            Does (frame_row c now r message.now.from message.now.body self.old.state)
            self.new.state effects.old effects.new) }
        ensures domains { self.new.domains ≡ self.old.domains }
        ensures few { length effects.new.out ≤ length effects.old.out + MAX_ARBITRATORS }
        ensures refused { OnErr result ((self.new ≡ self.old) × (effects.new ≡ effects.old)) }
        ensures memory { OnErr result ((c : Site) (now : ℕ) (r : Ring) → r.me.actor ≡ me →
            grows_above self.old.state (frame_row c now r message.now.from message.now.body self.old.state) ≡ true) }
    {
        self.states
            .frame_received(me, message.from, &message.body, effects)
    }

    /// The row of an answer to the manager, which places by the nodes that are up at this reading. It needs no memory.
    #[tactic(auto, using(crate::proofs::UnitRows::answer_row))]
    pub fn answered(
        &mut self,
        now: u64,
        ring: &RingNode,
        message: &Message,
        effects: &mut UnitEffects,
    )
        requires sound { IsTrue (is_sound message.now) }
        requires answer { is_some (answered_unit message.now.body) ≡ true }
        requires room { HasRoom effects.old }
        ensures does { Does (frame_row (site_at ring.now.settings self.old)
            now ring.now.ring message.now.from message.now.body self.old.state) self.new.state effects.old effects.new }
        ensures domains { self.new.domains ≡ self.old.domains }
        ensures few { length effects.new.out ≤ length effects.old.out + MAX_ARBITRATORS }
    {
        let since = now.saturating_sub(2 * ring.lease());
        let mut places = [NO_NODE; MAX_NODES];
        let nodes = &mut places[..self.domains.len()];
        fill_unloaded(self.domains.as_slice(), ring, since, nodes);
        self.manager.answered(message, nodes, effects);
    }
}
