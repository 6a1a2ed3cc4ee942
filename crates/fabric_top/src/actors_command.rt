ghost use Rattle.std.specs.Prelude.{◌≡◌};
ghost use Rattle.fabric_top.specs.CrewCauses.{IsCrewRun};
ghost use Rattle.edge_io.specs.Told.{Loans};
ghost use Rattle.turn_rules.specs.Whole.{told_of};

use crate::crew_run::run_crew;
use edge_io::{Clock, Devices, Keeper, Links, Sink, Source};
use fabric_status::Status;
use std::alloc::Global;
use turn_plans::Crew;

/// Runs the actors that the words name, by what the source says.
pub fn run_actors<S: Source, K: Sink, N: Links, D: Keeper, C: Clock>(
    alloc: Global,
    crew: Crew,
    turns: u64,
    source: &mut S,
    devices: &mut Devices<'_, '_, '_, '_, K, N, D, C>,
) -> Status
    ensures run { (l : Loans) × IsCrewRun crew turns
        (record {
          left = S.left source.old;
          source_faults = S.faults source.old;
          told = told_of l (K.held devices.old.sink.now) (K.faults devices.old.sink.now) (D.kept devices.old.keeps.now) (D.faults devices.old.keeps.now) (N.opened devices.old.links.now) (N.arrivals devices.old.links.now) (N.sent devices.old.links.now) (N.faults devices.old.links.now) (C.readings devices.old.clock.now) (C.last devices.old.clock.now) (C.falls devices.old.clock.now);
        })
        result
        (record {
          left = S.left source.new;
          source_faults = S.faults source.new;
          told = told_of l (K.held devices.new.sink.now) (K.faults devices.new.sink.now) (D.kept devices.new.keeps.now) (D.faults devices.new.keeps.now) (N.opened devices.new.links.now) (N.arrivals devices.new.links.now) (N.sent devices.new.links.now) (N.faults devices.new.links.now) (C.readings devices.new.clock.now) (C.last devices.new.clock.now) (C.falls devices.new.clock.now);
        }) }
    ensures sink { devices.new.sink.ghost_name ≡ devices.old.sink.ghost_name }
    ensures links { devices.new.links.ghost_name ≡ devices.old.links.ghost_name }
    ensures keeps { devices.new.keeps.ghost_name ≡ devices.old.keeps.ghost_name }
    ensures clock { devices.new.clock.ghost_name ≡ devices.old.clock.ghost_name }
{
    run_crew(alloc, crew, turns, source, devices)
}
