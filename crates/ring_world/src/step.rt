ghost use Rattle.std.specs.Prelude.{◌≡◌, ◌≤◌, ◌<◌, ℕ, Some, OnOk, slice_get};
ghost use Rattle.node_core.specs.Nodes.{FitsInput, frames_limit, most_reports};
ghost use Rattle.world_rules.specs.Events.{node_acts};
ghost use Rattle.fabric_lemmas.specs.Maps.{at};
ghost use Rattle.unit_rules.specs.Fabric.{fabric};
ghost use Rattle.world_rules.specs.Worlds.{World as RuledWorld, Running as RuledRunning};
ghost use Rattle.ring_world.specs.Moves.{Same, Steps};
ghost use Rattle.world_rules.specs.EventLimits.{most_events, most_frames};
ghost use Rattle.ring_world.specs.Stands.{Stands};
ghost use Rattle.ring_world.specs.Steps.{CanStep};

use crate::world::{Acted, World};
use fabric_terms::OutOfMemory;
use node_core::NodeEffects;
use ring_node::Input;
use ring_points::MAX_STEP_REPORTS;

impl World {
    /// Makes room for so many frames and for what one step tells.
    pub(crate) fn make_room(&mut self, frames: usize) -> Result<(), OutOfMemory>
        requires { frames ≤ frames_limit }
        ensures same { Same self.old self.new }
        ensures rest { self.new ≡ record self.old { frames = self.new.frames; places = self.new.places } }
        ensures frames { OnOk result (frames ≤ self.new.frames.room) }
        ensures reports { OnOk result (most_reports ≤ self.new.places.room) }
    {
        self.frames.reserve(frames)?;
        self.places.reserve(MAX_STEP_REPORTS)?;
        Ok(())
    }

    /// The running node at this place takes the input, and leaves what it does in these effects. Its frames are sent
    /// from there, and its reports are taken out.
    fn step_with(
        &mut self,
        line: u64,
        place: usize,
        input: &Input,
        effects: &mut NodeEffects,
    ) -> Result<Acted, OutOfMemory>
        requires can { (w : RuledWorld fabric) × Stands self.old w × CanStep self.old.config w place input.now }
        requires input { FitsInput input.now }
        requires events { self.old.events < most_events }
        requires frames { self.old.sent < most_frames }
        ensures { (w : RuledWorld fabric) (node : ℕ) (s : RuledRunning fabric) → Stands self.old w →
            slice_get w.nodes place ≡ Some (node, s) → at node w.nodes ≡ Some s →
            Steps self.old self.new (node_acts fabric self.old.config w node input.now s) line result }
    {
        let most = self.running[place].node.most_frames();
        self.make_room(most)?;
        let (who, reading) = self.clocks[place];
        let running = &mut self.running[place];
        running.node.step_into(reading, input, effects)?;
        let reports = effects.take_reports(self.alloc);
        Ok(self.commit(line, who, Some(reading), effects.frames(), reports))
    }

    /// The running node at this place takes the input.
    pub(crate) fn step_at(
        &mut self,
        line: u64,
        place: usize,
        input: &Input,
    ) -> Result<Acted, OutOfMemory>
        requires can { (w : RuledWorld fabric) × Stands self.old w × CanStep self.old.config w place input.now }
        requires input { FitsInput input.now }
        requires events { self.old.events < most_events }
        requires frames { self.old.sent < most_frames }
        ensures { (w : RuledWorld fabric) (node : ℕ) (s : RuledRunning fabric) → Stands self.old w →
            slice_get w.nodes place ≡ Some (node, s) → at node w.nodes ≡ Some s →
            Steps self.old self.new (node_acts fabric self.old.config w node input.now s) line result }
    {
        let mut effects = NodeEffects::take_from(&mut self.effects, self.alloc)?;
        let acted = self.step_with(line, place, input, &mut effects);
        NodeEffects::keep_in(&mut self.effects, effects);
        acted
    }
}
