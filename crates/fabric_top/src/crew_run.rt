ghost use Rattle.std.specs.Prelude.{◌≡◌};
ghost use Rattle.fabric_top.specs.CrewCauses.{IsCrewRun};
ghost use Rattle.fabric_status.specs.Codes.{status_of};
ghost use Rattle.fabric_status.specs.Faults.{fault_line};
ghost use Rattle.fabric_status.specs.Writes.{Wrote};
ghost use Rattle.edge_io.specs.Told.{Loans};
ghost use Rattle.turn_rules.specs.Whole.{told_of};

use edge_io::{Clock, Devices, Keeper, Links, Sink, Source};
use fabric_status::{Refusal, Status, push_fault, write_last};
use fabric_turns::run_on;
use std::alloc::Global;
use turn_plans::{Crew, PlanError, read_plan};

/// Writes how the source is refused.
fn refuse<K: Sink>(alloc: Global, refusal: Refusal, sink: &mut K) -> Status
    ensures { Wrote (status_of refusal) (fault_line (status_of refusal)) result (K.held sink.old) (K.held sink.new)
        (K.faults sink.old) (K.faults sink.new) }
{
    let mut text = Vec::new(alloc);
    match push_fault(alloc, &mut text, refusal.status()) {
        Ok(()) => write_last(sink, text.as_slice(), refusal.status()),
        Err(_) => Status::OutOfMemory,
    }
}

/// Reads the source line by line, to its end or to the first line that is refused, and then runs the crew for so many
/// turns: its configuration and commands are those of the source. Where the source fails or is refused, or memory is
/// short before the run, nothing is opened, kept or sent.
pub fn run_crew<S: Source, K: Sink, N: Links, D: Keeper, C: Clock>(
    alloc: Global,
    crew: Crew,
    turns: u64,
    source: &mut S,
    devices: &mut Devices<'_, '_, '_, '_, K, N, D, C>,
) -> Status
    ensures run { (l : Loans) × IsCrewRun crew turns
        (record {
          left = S.left source.old;
          source_faults = S.faults source.old;
          told = told_of l (K.held devices.old.sink.now) (K.faults devices.old.sink.now) (D.kept devices.old.keeps.now) (D.faults devices.old.keeps.now) (N.opened devices.old.links.now) (N.arrivals devices.old.links.now) (N.sent devices.old.links.now) (N.faults devices.old.links.now) (C.readings devices.old.clock.now) (C.last devices.old.clock.now) (C.falls devices.old.clock.now);
        })
        result
        (record {
          left = S.left source.new;
          source_faults = S.faults source.new;
          told = told_of l (K.held devices.new.sink.now) (K.faults devices.new.sink.now) (D.kept devices.new.keeps.now) (D.faults devices.new.keeps.now) (N.opened devices.new.links.now) (N.arrivals devices.new.links.now) (N.sent devices.new.links.now) (N.faults devices.new.links.now) (C.readings devices.new.clock.now) (C.last devices.new.clock.now) (C.falls devices.new.clock.now);
        }) }
    ensures sink { devices.new.sink.ghost_name ≡ devices.old.sink.ghost_name }
    ensures links { devices.new.links.ghost_name ≡ devices.old.links.ghost_name }
    ensures keeps { devices.new.keeps.ghost_name ≡ devices.old.keeps.ghost_name }
    ensures clock { devices.new.clock.ghost_name ≡ devices.old.clock.ghost_name }
{
    match read_plan(alloc, crew, turns, source) {
        Err(PlanError::SourceFailed) => write_last(
            devices.sink,
            b"fault read\n",
            Status::ReadFault,
        ),
        Err(PlanError::OutOfMemory) => Status::OutOfMemory,
        Err(PlanError::Refused(refusal)) => refuse(alloc, refusal, devices.sink),
        Ok(plan) => run_on(
            alloc,
            &plan,
            devices.sink,
            devices.links,
            devices.keeps,
            devices.clock,
        ),
    }
}
