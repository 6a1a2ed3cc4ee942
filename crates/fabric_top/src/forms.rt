ghost use Rattle.std.specs.Prelude.{◌≡◌, ◌≢◌, Some};
ghost use Rattle.fabric_top.specs.Forms.{FitsForm};
ghost use Rattle.fabric_top.specs.Top.{Does};
ghost use Rattle.edge_io.specs.Told.{Loans};
ghost use Rattle.turn_rules.specs.Whole.{told_of};

use crate::actors_command::run_actors;
use crate::audit_command::audit_source;
use crate::form::Form;
use crate::generate_command::{drill_schedule, generate_schedule};
use crate::replay_command::replay_source;
use crate::trace_command::trace_source;
use crate::writes_command::writes_source;
use edge_io::{Clock, Devices, Keeper, Links, Sink, Source};
use fabric_status::Status;
use std::alloc::Global;
use turn_plans::Crew;

/// Runs the command of a form.
pub fn run_form<S: Source, K: Sink, N: Links, D: Keeper, C: Clock>(
    alloc: Global,
    form: Form,
    source: &mut S,
    devices: &mut Devices<'_, '_, '_, '_, K, N, D, C>,
) -> Status
    requires { FitsForm form }
    ensures does { (l : Loans) × Does (Some form)
        (record {
          left = S.left source.old;
          source_faults = S.faults source.old;
          told = told_of l (K.held devices.old.sink.now) (K.faults devices.old.sink.now) (D.kept devices.old.keeps.now) (D.faults devices.old.keeps.now) (N.opened devices.old.links.now) (N.arrivals devices.old.links.now) (N.sent devices.old.links.now) (N.faults devices.old.links.now) (C.readings devices.old.clock.now) (C.last devices.old.clock.now) (C.falls devices.old.clock.now);
        })
        result
        (record {
          left = S.left source.new;
          source_faults = S.faults source.new;
          told = told_of l (K.held devices.new.sink.now) (K.faults devices.new.sink.now) (D.kept devices.new.keeps.now) (D.faults devices.new.keeps.now) (N.opened devices.new.links.now) (N.arrivals devices.new.links.now) (N.sent devices.new.links.now) (N.faults devices.new.links.now) (C.readings devices.new.clock.now) (C.last devices.new.clock.now) (C.falls devices.new.clock.now);
        }) }
    ensures sink { devices.new.sink.ghost_name ≡ devices.old.sink.ghost_name }
    ensures links { devices.new.links.ghost_name ≡ devices.old.links.ghost_name }
    ensures keeps { devices.new.keeps.ghost_name ≡ devices.old.keeps.ghost_name }
    ensures clock { devices.new.clock.ghost_name ≡ devices.old.clock.ghost_name }
    ensures usage { result ≢ Status.Usage }
{
    match form {
        Form::Replay => replay_source(alloc, source, devices.sink),
        Form::Trace => trace_source(alloc, source, devices.sink),
        Form::Audit => audit_source(alloc, source, devices.sink),
        Form::Writes => writes_source(alloc, source, devices.sink),
        Form::Node { node, turns } => {
            run_actors(alloc, Crew::Node(node), turns, source, devices)
        }
        Form::Arbiter { arbiter, turns } => {
            run_actors(alloc, Crew::Arbiter(arbiter), turns, source, devices)
        }
        Form::Cluster { turns } => { run_actors(alloc, Crew::Cluster, turns, source, devices) }
        Form::Generate {
            seed,
            nodes,
            rounds,
        } => generate_schedule(alloc, seed, nodes, rounds, devices.sink),
        Form::Drill {
            seed,
            nodes,
            rounds,
        } => drill_schedule(alloc, seed, nodes, rounds, devices.sink),
    }
}
