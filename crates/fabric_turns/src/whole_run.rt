ghost use Rattle.std.specs.Prelude.{◌≡◌};
ghost use Rattle.edge_io.specs.Told.{Loans};
ghost use Rattle.turn_rules.specs.Plans.{IsPlan};
ghost use Rattle.turn_rules.specs.Whole.{Ends, IsRun, told_of};

use crate::ending::finish;
use crate::recovery::{open_all, recall_all};
use crate::run::Run;
use crate::startup::start_all;
use crate::turns::take_turns;
use crate::workspace::Workspace;
use edge_io::{Clock, Devices, Keeper, Links, Outside, Sink};
use fabric_status::Status;
use std::alloc::Global;
use turn_rules::{Plan, StopCause};

/// The run of a plan, up to its last line.
fn run_plan<O: Outside>(outside: &mut O, alloc: Global, plan: &Plan) -> Result<(), StopCause>
    requires { IsPlan plan.now }
    ensures { Ends plan.now (O.told outside.old) result (O.told outside.new) }
{
    let kept = recall_all(outside, alloc, plan)?;
    open_all(outside, plan)?;
    let mut run = Run::new(alloc);
    let Ok(mut work) = Workspace::new(alloc) else {
        return Err(StopCause::OutOfMemory);
    };
    start_all(outside, plan, kept, &mut run, &mut work)?;
    take_turns(outside, plan, &mut run, &mut work)
}

/// The run of a plan.
fn run_whole<O: Outside>(outside: &mut O, alloc: Global, plan: &Plan) -> Status
    requires { IsPlan plan.now }
    ensures run { IsRun plan.now (O.told outside.old) result (O.told outside.new) }
    ensures loans { (O.told outside.new).loans ≡ (O.told outside.old).loans }
{
    let ended = run_plan(outside, alloc, plan);
    finish(outside, alloc, plan.turns(), ended)
}

/// The run of a plan over these devices.
pub fn run_on<K: Sink, N: Links, D: Keeper, C: Clock>(
    alloc: Global,
    plan: &Plan,
    sink: &mut K,
    links: &mut N,
    keeps: &mut D,
    clock: &mut C,
) -> Status
    requires { IsPlan plan.now }
    ensures { (l : Loans) × IsRun plan.now
        (told_of l (K.held sink.old) (K.faults sink.old) (D.kept keeps.old) (D.faults keeps.old) (N.opened links.old)
        (N.arrivals links.old) (N.sent links.old) (N.faults links.old) (C.readings clock.old) (C.last clock.old)
        (C.falls clock.old))
        result
        (told_of l (K.held sink.new) (K.faults sink.new) (D.kept keeps.new) (D.faults keeps.new) (N.opened links.new)
        (N.arrivals links.new) (N.sent links.new) (N.faults links.new) (C.readings clock.new) (C.last clock.new)
        (C.falls clock.new)) }
{
    let mut devices = Devices {
        sink,
        links,
        keeps,
        clock,
    };
    run_whole(&mut devices, alloc, plan)
}
