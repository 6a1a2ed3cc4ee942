ghost use Rattle.std.specs.Prelude.{◌≡◌, ◌<◌, ℕ, None};
ghost use Rattle.fabric_terms.specs.Ranges.{Fits};
ghost use Rattle.unit_rules.specs.Fabric.{fabric};
ghost use Rattle.world_rules.specs.Worlds.{World as RuledWorld, quiet};
ghost use Rattle.ring_world.specs.Answers.{IsWorld};
ghost use Rattle.frame_format.specs.Kinds.{is_frame};
ghost use Rattle.ring_world.specs.Moves.{Comes, Moves};
ghost use Rattle.world_rules.specs.EventLimits.{most_events};
ghost use Rattle.ring_world.specs.Stands.{Stands};

use crate::world::{Acted, EventRefusal, World};
use fabric_terms::{Command, Event, copy_of};
use ring_node::Input;
use ring_wire::decode;
use world_rules::is_named;

fn is_frame(bytes: &[u8]) -> bool
    ensures { result ≡ is_frame bytes.now }
{
    match decode(bytes) {
        Ok(_) => true,
        Err(_) => false,
    }
}

impl World {
    /// An event at which no actor does anything.
    pub(crate) fn pass(&mut self)
        requires { self.old.events < most_events }
        ensures { (w : RuledWorld fabric) (line : ℕ) → Stands self.old w →
            Moves self.old self.new (quiet fabric w) line None }
    {
        self.events += 1;
    }

    /// A node's timer fires.
    pub(crate) fn take_fire(&mut self, line: u64, node: u16) -> Result<Option<Acted>, EventRefusal>
        requires world { IsWorld self.old }
        requires fits { Fits (Event.Fire node) }
        ensures { (w : RuledWorld fabric) → Stands self.old w →
            Comes self.old self.new w line (Event.Fire node) result }
    {
        let Some(place) = self.place_of(node) else {
            return Err(EventRefusal::NoSuch);
        };
        if !self.may_act() {
            return Err(EventRefusal::TooLarge);
        }
        Ok(Some(self.step_at(line, place, &Input::Fire)?))
    }

    /// An operator commands a node.
    pub(crate) fn command(
        &mut self,
        line: u64,
        node: u16,
        command: &Command,
    ) -> Result<Option<Acted>, EventRefusal>
        requires world { IsWorld self.old }
        requires fits { Fits (Event.Do node command.now) }
        ensures { (w : RuledWorld fabric) → Stands self.old w →
            Comes self.old self.new w line (Event.Do node command.now) result }
    {
        let Some(place) = self.place_of(node) else {
            return Err(EventRefusal::NoSuch);
        };
        if !is_named(&self.config, node, command) {
            return Err(EventRefusal::NoSuch);
        }
        if !self.may_act() {
            return Err(EventRefusal::TooLarge);
        }
        Ok(Some(self.step_at(line, place, &Input::Do(copy_of(command)))?))
    }

    /// Bytes that are no frame come to an actor. It is never inlined, for the room of a frame that it tries to read.
    #[inline(never)]
    pub(crate) fn junk(&mut self, actor: u16, bytes: &[u8]) -> Result<Option<Acted>, EventRefusal>
        ensures { (w : RuledWorld fabric) (line : ℕ) → Stands self.old w →
            Comes self.old self.new w line (Event.Junk actor bytes.now) result }
    {
        if !self.runs(actor) {
            return Err(EventRefusal::NoSuch);
        }
        if is_frame(bytes) {
            return Err(EventRefusal::NoSuch);
        }
        if !self.may_come() {
            return Err(EventRefusal::TooLarge);
        }
        self.pass();
        Ok(None)
    }
}
