ghost use Rattle.std.specs.Prelude.{◌≡◌, ◌<◌, ◌==◌, ◌||◌, Some};
ghost use Rattle.world_rules.specs.Events.{arrives, arrives_at_node};
ghost use Rattle.fabric_lemmas.specs.Maps.{at};
ghost use Rattle.unit_rules.specs.Fabric.{fabric};
ghost use Rattle.world_rules.specs.Worlds.{World as RuledWorld};
ghost use Rattle.ring_points.specs.Whos.{arbiter_actor};
ghost use Rattle.ring_rules.specs.declared.input.Input.TheVariants as inputs;
ghost use Rattle.fabric_terms.specs.Ranges.{Fits};
ghost use Rattle.ring_world.specs.Answers.{IsWorld};
ghost use Rattle.ring_world.specs.Moves.{Comes, Delivers};
ghost use Rattle.world_rules.specs.EventLimits.{most_events, most_frames};
ghost use Rattle.ring_world.specs.Stands.{Stands};
ghost use Rattle.ring_world.specs.Steps.{IsSoundFrame, LeavesSound};

use crate::frame_place::FramePlace;
use crate::world::{Acted, EventRefusal, World};
use fabric_terms::{Event, Message, OutOfMemory};
use ring_node::Input;
use ring_points::{ARBITRATORS, Who};

/// Whether a message to this instance, or to whichever runs, is meant for the one that runs.
fn is_meant(to: Who, me: Who) -> bool
    ensures { result ≡ (to.instance == 0 || to.instance == me.instance) }
{
    to.instance == 0 || to.instance == me.instance
}

impl World {
    /// A message comes to a node. It is lost where the node does not run, or another instance than it names.
    fn reach_node(
        &mut self,
        line: u64,
        message: &Message,
        input: &Input,
    ) -> Result<Option<Acted>, OutOfMemory>
        requires input { input.now ≡ inputs.Frame message.now }
        requires can { (w : RuledWorld fabric) × Stands self.old w ×
            LeavesSound (arrives_at_node fabric self.old.config w message.now (at message.now.to.actor w.nodes)) }
        requires sound { IsSoundFrame message.now }
        requires events { self.old.events < most_events }
        requires frames { self.old.sent < most_frames }
        ensures { (w : RuledWorld fabric) → Stands self.old w →
            Delivers self.old self.new
            (arrives_at_node fabric self.old.config w message.now (at message.now.to.actor w.nodes)) line result }
    {
        let to = message.to;
        let Some(place) = self.place_of(to.actor) else {
            self.pass();
            return Ok(None);
        };
        let (me, _) = self.clocks[place];
        if !is_meant(to, me) {
            self.pass();
            return Ok(None);
        }
        Ok(Some(self.step_at(line, place, input)?))
    }

    /// A message comes to an arbitrator. It is lost where the arbitrator does not run.
    fn reach_arbiter(&mut self, line: u64, message: &Message) -> Result<Option<Acted>, OutOfMemory>
        requires arbiter { arbiter_actor 0 < message.now.to.actor }
        requires can { (w : RuledWorld fabric) × Stands self.old w ×
            LeavesSound (arrives fabric self.old.config w (Some message.now)) }
        requires events { self.old.events < most_events }
        requires frames { self.old.sent < most_frames }
        ensures { (w : RuledWorld fabric) → Stands self.old w →
            Delivers self.old self.new (arrives fabric self.old.config w (Some message.now)) line result }
    {
        let Some(place) = self.seat_of(message.to.actor) else {
            self.pass();
            return Ok(None);
        };
        if !self.seats[place].runs {
            self.pass();
            return Ok(None);
        }
        Ok(Some(self.rule_at(line, place, message)?))
    }

    /// A message comes to its addressee, for a node as this input.
    fn reach(
        &mut self,
        line: u64,
        message: &Message,
        input: &Input,
    ) -> Result<Option<Acted>, OutOfMemory>
        requires input { input.now ≡ inputs.Frame message.now }
        requires can { (w : RuledWorld fabric) × Stands self.old w ×
            LeavesSound (arrives fabric self.old.config w (Some message.now)) }
        requires sound { IsSoundFrame message.now }
        requires events { self.old.events < most_events }
        requires frames { self.old.sent < most_frames }
        ensures { (w : RuledWorld fabric) → Stands self.old w →
            Delivers self.old self.new (arrives fabric self.old.config w (Some message.now)) line result }
    {
        if message.to.actor <= ARBITRATORS {
            self.reach_node(line, message, input)
        } else {
            self.reach_arbiter(line, message)
        }
    }

    /// The frame of this number comes to its addressee. It is read into the place.
    pub(crate) fn take_give(
        &mut self,
        line: u64,
        number: u64,
        given: &mut FramePlace,
    ) -> Result<Option<Acted>, EventRefusal>
        requires world { IsWorld self.old }
        requires fits { Fits (Event.Give number) }
        ensures { (w : RuledWorld fabric) → Stands self.old w →
            Comes self.old self.new w line (Event.Give number) result }
    {
        let Input::Frame(place) = &mut given.input else {
            unreachable!();
        };
        if !self.frames.read(number, place) {
            return Err(EventRefusal::NoSuch);
        }
        if !self.may_act() {
            return Err(EventRefusal::TooLarge);
        }
        let input = &given.input;
        let Input::Frame(message) = input else {
            unreachable!();
        };
        Ok(self.reach(line, message, input)?)
    }

    /// The frame of this number comes to its addressee. It is read into a place that lasts no longer.
    pub(crate) fn give_once(
        &mut self,
        line: u64,
        number: u64,
    ) -> Result<Option<Acted>, EventRefusal>
        requires world { IsWorld self.old }
        requires fits { Fits (Event.Give number) }
        ensures { (w : RuledWorld fabric) → Stands self.old w →
            Comes self.old self.new w line (Event.Give number) result }
    {
        self.take_give(line, number, &mut FramePlace::new())
    }
}
