// The last lines of a report.
ghost use Rattle.std.specs.Prelude.{◌≡◌, ◌++◌, ℕ, List, OnOk};
ghost use Rattle.fabric_terms.specs.declared.config.FabricConfig.{FabricConfig as Configuration};
ghost use Rattle.world_rules.specs.Runs.{History};
ghost use Rattle.ring_world.specs.Answers.{StandsFor};
ghost use Rattle.schedule_rules.specs.Output.{end_line};
ghost use Rattle.schedule_rules.specs.Tellings.{IsEnding};
ghost use Rattle.text_fields.specs.Texts.{Keeps};

use fabric_status::push_two;
use fabric_terms::OutOfMemory;
use ring_world::World;

/// Appends how many events there were, and how many frames were sent. At want of memory a front of it may be written.
pub fn push_end(text: &mut Vec<u8>, counts: (u64, u32)) -> Result<(), OutOfMemory>
    ensures ok { OnOk result (text.new.items ≡ text.old.items ++ end_line counts.0 counts.1) }
    ensures kept { Keeps text.old.items text.new.items }
{
    push_two(text, b"end ", counts.0, u64::from(counts.1))
}

/// Appends where the points are that nobody holds, and the end. At want of memory a front of it may be written.
pub fn push_ending(text: &mut Vec<u8>, world: &World) -> Result<(), OutOfMemory>
    ensures ok { (c : Configuration) (h : History) → StandsFor world.now c h →
        OnOk result ((ending : List ℕ) × IsEnding c h ending × (text.new.items ≡ text.old.items ++ ending)) }
    ensures kept { (c : Configuration) (h : History) → StandsFor world.now c h → Keeps text.old.items text.new.items }
{
    world.place_lines(text)?;
    push_end(text, world.counts())
}
