ghost use Rattle.std.specs.Prelude.{◌≡◌, ◌++◌, ◌∷◌, ◌≤◌, ℕ, Option, None, OnOk};
ghost use Rattle.fabric_terms.specs.declared.event.Event.TheVariants.{Tick};
ghost use Rattle.ring_world.specs.Answers.{StandsFor, Takes};
ghost use Rattle.schedule_generate.specs.Moves.{event_for};
ghost use Rattle.schedule_generate.specs.Settings.{generated_config, most_generated_nodes};
ghost use Rattle.schedule_generate.specs.Texts.{Writing};
ghost use Rattle.world_rules.specs.Runs.{History};

use crate::moves::Move;
use fabric_terms::OutOfMemory;
use ring_world::{Acted, World};

/// What is written of a schedule as it is made. Each word that makes a schedule is a listener; it may keep what it
/// wants of the events.
pub trait CourseObserver {
    /// What is written of a schedule of so many nodes.
    ghost writing: { ℕ → Writing };

    /// Whether it stands for these events of so many nodes.
    ghost knows: { Self → ℕ → History → Type 0 };

    /// Appends what stands before all events. At want of memory nothing is said of the text, here as below.
    fn begin(&self, nodes: u16, text: &mut Vec<u8>) -> Result<(), OutOfMemory>
        requires some { 1 ≤ nodes }
        requires few { nodes ≤ most_generated_nodes }
        ensures { OnOk result (text.new.items ≡ text.old.items ++ (writing nodes).heading) };

    /// Takes an event of this line that is no tick, which the world has taken, and appends what is written of it.
    fn took(
        &mut self,
        world: &World,
        line: u64,
        made: Move,
        acted: &Option<Acted>,
        text: &mut Vec<u8>,
    ) -> Result<(), OutOfMemory>
        ensures { (n : ℕ) (h : History) → knows self.old n h → Takes world.now (generated_config n) h line (event_for made) acted.now → OnOk result (knows self.new n ((line, event_for made) ∷ h) × (text.new.items ≡ text.old.items ++ (writing n).line (event_for made))) };

    /// Takes a tick of this line, which the world has taken, and appends what is written of it.
    fn ticked(
        &mut self,
        world: &World,
        line: u64,
        advance: u64,
        readings: &[(u16, u64)],
        text: &mut Vec<u8>,
    ) -> Result<(), OutOfMemory>
        ensures { (n : ℕ) (h : History) → knows self.old n h → Takes world.now (generated_config n) h line (Tick advance readings.now) None → OnOk result (knows self.new n ((line, Tick advance readings.now) ∷ h) × (text.new.items ≡ text.old.items ++ (writing n).line (Tick advance readings.now))) };

    /// Appends what stands behind all events.
    fn end(&self, world: &World, text: &mut Vec<u8>) -> Result<(), OutOfMemory>
        ensures { (n : ℕ) (h : History) → knows self.now n h → StandsFor world.now (generated_config n) h → OnOk result (text.new.items ≡ text.old.items ++ (writing n).ending h) };
}
