ghost use Rattle.std.specs.Prelude.{◌≡◌, ◌≤◌, ◌+◌, IfOk, OnErr, length, true};
ghost use Rattle.fabric_terms.specs.Ranges.{FitsCommand};
ghost use Rattle.reconfig_phases.specs.Tasks.{replicas_of};
ghost use Rattle.unit_desk.specs.UnitEffects.{Does, HasRoom};
ghost use Rattle.ring_rules.specs.declared.input.Input.TheVariants as inputs;
ghost use Rattle.unit_rules.specs.Steps.{command_row, manage};
ghost use Rattle.node_core.specs.Memory.{grows_above, row_stores};
ghost use Rattle.node_core.specs.UnitParts.{site_at};

use crate::unit_part::UnitNode;
use fabric_terms::{Command, OutOfMemory};
use ring_node::RingNode;
use ring_points::{MAX_ARBITRATORS, MAX_MEMBERS, Point};
use unit_desk::UnitEffects;
use unit_manager::Wanted;
use unit_rules::Kind;

impl UnitNode {
    /// A command to the manager, which is the node that holds ring point 0 at this reading.
    #[tactic(auto, using(crate::proofs::Storing::manager_grows))]
    fn manage(
        &mut self,
        now: u64,
        ring: &RingNode,
        partition: u16,
        kind: Kind,
        effects: &mut UnitEffects,
    ) -> Result<(), OutOfMemory>
        requires replicas { replicas_of kind ≤ MAX_MEMBERS }
        requires room { HasRoom effects.old }
        ensures does { IfOk result (λ _. Does
            (manage (site_at ring.now.settings self.old) now ring.now.ring partition kind self.old.state)
            self.new.state effects.old effects.new) }
        ensures domains { self.new.domains ≡ self.old.domains }
        ensures few { length effects.new.out ≤ length effects.old.out + MAX_ARBITRATORS }
        ensures refused { OnErr result ((self.new ≡ self.old) × (effects.new ≡ effects.old)) }
        ensures memory { OnErr result (grows_above self.old.state
            (manage (site_at ring.now.settings self.old) now ring.now.ring partition kind self.old.state) ≡ true) }
    {
        let is_manager = ring.holds(now, Point(0));
        let wanted = Wanted {
            partition,
            kind,
            arbitrators: ring.arbitrators(),
            me: ring.me(),
        };
        self.manager.commanded(is_manager, wanted, effects)
    }

    /// The row of a command; a command to the ring changes nothing here. It is an error where memory is short for what
    /// the row stores or answers, and then nothing is changed: no refusal wants memory.
    #[tactic(auto, using(crate::proofs::Storing::command_stores))]
    pub fn commanded(
        &mut self,
        now: u64,
        ring: &RingNode,
        command: &Command,
        effects: &mut UnitEffects,
    ) -> Result<(), OutOfMemory>
        requires fits { FitsCommand command.now }
        requires room { HasRoom effects.old }
        ensures does { IfOk result (λ _. Does
            (command_row (site_at ring.now.settings self.old) now ring.now.ring command.now self.old.state)
            self.new.state effects.old effects.new) }
        ensures domains { self.new.domains ≡ self.old.domains }
        ensures few { length effects.new.out ≤ length effects.old.out + MAX_ARBITRATORS }
        ensures refused { OnErr result ((self.new ≡ self.old) × (effects.new ≡ effects.old)) }
        ensures memory { OnErr result (row_stores (site_at ring.now.settings self.old)
            now ring.now.ring self.old.state (inputs.Do command.now) ≡ true) }
    {
        match command {
            Command::Create(partition, count) => {
                self.manage(now, ring, *partition, Kind::Create(*count), effects)
            }
            Command::Swap(partition, node) => {
                self.manage(now, ring, *partition, Kind::Swap(*node), effects)
            }
            Command::Heal(partition, count) => {
                self.manage(now, ring, *partition, Kind::Heal(*count), effects)
            }
            Command::Lose(partition, node) => {
                self.manage(now, ring, *partition, Kind::Lose(*node), effects)
            }
            Command::Write(partition, text) => self.states.write(*partition, text, effects),
            Command::Resolve(partition, name) => self.states.resolve(*partition, name, effects),
            Command::Names(partition, range) => self.states.list_names(*partition, range, effects),
            Command::Units(range) => self.manager.list_units(range, effects),
            _ => Ok(()),
        }
    }
}
