ghost use Rattle.std.specs.Prelude.{All, IsTrue};
ghost use Rattle.edge_io.specs.Arrivals.{IsListening};
ghost use Rattle.fabric_terms.specs.Messages.{is_sound as is_sound_frame};
ghost use Rattle.keep_log.specs.Spellings.{is_sound as is_sound_record};
ghost use Rattle.turn_effects.specs.Carried.{CarriesOut};
ghost use Rattle.turn_rules.specs.Works.{work_with};

use crate::buffers::Buffers;
use crate::frames::send_each;
use crate::records::keep_all;
use crate::reports::write_reports;
use crate::step_effects::StepEffects;
use edge_io::Outside;
use fabric_terms::FabricConfig;
use turn_rules::StopCause;

/// Does what a step of the actor in the head leaves to do. It keeps the records, then sends the frames, then writes the
/// reports. If it stops before the end, a front of that is done: frames go out only if all records are kept.
pub fn carry_out<O: Outside>(
    outside: &mut O,
    config: &FabricConfig,
    effects: &StepEffects<'_>,
    buffers: &mut Buffers,
) -> Result<(), StopCause>
    requires listens { IsListening effects.now.head.now.who.actor (O.told outside.old).opened }
    requires records { All (λ r. IsTrue (is_sound_record r)) effects.now.records.now }
    requires frames { All (λ m. IsTrue (is_sound_frame m)) effects.now.frames.now }
    ensures { CarriesOut (work_with config.now effects.now.head.now effects.now.records.now effects.now.frames.now
        effects.now.reports.now) (O.told outside.old) (O.told outside.new) result }
{
    let actor = effects.head.who.actor;
    keep_all(outside, actor, effects.records)?;
    send_each(outside, config, actor, effects.frames, &mut buffers.frame)?;
    write_reports(outside, effects.head, effects.reports, &mut buffers.text)
}
