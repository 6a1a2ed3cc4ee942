ghost use Rattle.std.specs.Prelude.{◌≡◌, ◌++◌, ◌∷◌, ℕ, List, OnOk};
ghost use Rattle.fabric_terms.specs.declared.config.FabricConfig.{FabricConfig as Configuration};
ghost use Rattle.fabric_terms.specs.declared.event.Event.{Event};
ghost use Rattle.ring_world.specs.Answers.{StandsFor, Takes};
ghost use Rattle.schedule_rules.specs.Telling.{Telling};
ghost use Rattle.text_fields.specs.Texts.{Keeps};
ghost use Rattle.world_rules.specs.Runs.{History};

use fabric_terms::OutOfMemory;
use ring_world::{Acted, World};

/// What is written of a schedule that is run, event by event. Each word that runs a schedule is a teller; it may keep
/// what it wants of the events.
pub trait RunObserver {
    /// What is written: the heading, the lines of each event, and what may end a good schedule.
    ghost telling: { Telling };

    /// Whether it stands for these events.
    ghost knows: { Self → Configuration → History → Type 0 };

    /// What stands before all lines.
    fn heading(&self) -> &[u8]
        ensures { result.now ≡ telling.heading };

    /// Takes an event of this line, which the world has taken, and appends what is told of it. At want of memory a
    /// front of that may be written.
    fn tell(
        &mut self,
        world: &World,
        line: u64,
        acted: &Option<Acted>,
        text: &mut Vec<u8>,
    ) -> Result<(), OutOfMemory>
        ensures told { (c : Configuration) (h : History) (e : Event) → knows self.old c h →
            Takes world.now c h line e acted.now →
            OnOk result (knows self.new c ((line, e) ∷ h) ×
            (text.new.items ≡ text.old.items ++ telling.told c ((line, e) ∷ h))) }
        ensures kept { Keeps text.old.items text.new.items };

    /// Appends the ending of a good schedule. At want of memory a front of it may be written.
    fn end(&self, world: &World, text: &mut Vec<u8>) -> Result<(), OutOfMemory>
        ensures ended { (c : Configuration) (h : History) → knows self.now c h → StandsFor world.now c h →
            OnOk result ((ending : List ℕ) × (telling.ends c h ending) × (text.new.items ≡ text.old.items ++ ending)) }
        ensures kept { (c : Configuration) (h : History) → knows self.now c h → StandsFor world.now c h → Keeps text.old.items text.new.items };
}
