ghost use Rattle.std.specs.Prelude.{◌≡◌, ◌∷◌, [], IfOk, OnErr};
ghost use Rattle.failover_units.specs.Units.{partitions_in};
ghost use Rattle.fabric_terms.specs.declared.report.Report.TheVariants.{UnitList};
ghost use Rattle.unit_desk.specs.UnitEffects.{HasRoomFor, Left};
ghost use Rattle.unit_rules.specs.Deeds.{Tell};

use crate::manager::Manager;
use fabric_terms::{OutOfMemory, Partitions, Report};
use ring_points::Interval;
use unit_desk::UnitEffects;

impl Manager {
    /// Reports the partitions in a range whose configurations are known, rising. It is an error if memory is short, and
    /// then nothing is reported.
    pub fn list_units(&self, range: &Interval, effects: &mut UnitEffects) -> Result<(), OutOfMemory>
        requires { HasRoomFor 0 0 1 effects.old }
        ensures listed { IfOk result (λ _. Left (Tell (UnitList (partitions_in range.now self.now.units)) ∷ [])
            effects.old effects.new) }
        ensures refused { OnErr result (effects.new ≡ effects.old) }
    {
        match self.units.in_range(range) {
            Ok(partitions) => {
                effects
                    .told
                    .push(Report::UnitList(Partitions::new(partitions)));
                Ok(())
            }
            Err(_) => Err(OutOfMemory),
        }
    }
}
