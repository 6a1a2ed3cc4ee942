ghost use Rattle.std.specs.Prelude.{◌≡◌, ◌<◌, ◌+◌, OnOk, ◌∷◌, List, length, slice_get, Some, None, true};
ghost use Rattle.edge_io.specs.Told.{Told};
ghost use Rattle.fabric_terms.specs.declared.record.Record.{Record};
ghost use Rattle.fabric_turns.specs.Moves.{Reaches, Goes, at_place};
ghost use Rattle.fabric_turns.specs.Runs.{AreKept, IsKeptAt, IsReady, MeetsStart};
ghost use Rattle.turn_rules.specs.Happenings.{Happening, History};
ghost use Rattle.turn_rules.specs.Order.{TurnPosition, Starting, arrive, coming, onward};
ghost use Rattle.turn_rules.specs.Plans.{is_node_at};
ghost use Rattle.turn_rules.specs.Whole.{setting};

use crate::actor_step::carry_through;
use crate::clock::read_clock;
use crate::run::Run;
use crate::workspace::Workspace;
use edge_io::Outside;
use keep_log::Kept;
use turn_members::ArbiterError;
use turn_rules::{Plan, StopCause};

/// The start of the actor at a place, carried out.
fn join<O: Outside>(
    outside: &mut O,
    plan: &Plan,
    kept: Kept,
    run: &mut Run,
    place: usize,
    work: &mut Workspace,
) -> Result<(), StopCause>
    requires place { place < length plan.now.actors }
    requires kept { (records : List Record) × IsKeptAt plan.now place records kept }
    requires next { length run.old.members ≡ place }
    requires ready { IsReady plan.now run.old (O.told outside.old) }
    ensures done { (list : List (List Record)) (records : List Record) (a : Told) (h : History) (x : Happening)
        (p : TurnPosition) →
        slice_get list place ≡ Some records → IsKeptAt plan.now place records kept →
        MeetsStart (setting plan.now list) a (O.told outside.old) run.old h x p place →
        Reaches (setting plan.now list) a (O.told outside.new) run.new (x ∷ h) p result }
    ensures ready { OnOk result (IsReady plan.now run.new (O.told outside.new)) }
    ensures more { OnOk result (length run.new.members ≡ place + 1) }
{
    match run.join(work.alloc, plan, kept, place) {
        Err(ArbiterError::OutOfMemory) => Err(StopCause::OutOfMemory),
        Err(ArbiterError::TableFull) => Err(StopCause::TableFull),
        Ok(deed) => {
            work.effects.hold(deed.outcome);
            carry_through(outside, plan, run, place, &deed.head, work)
        }
    }
}

/// The start of the node at a place.
fn start_node<O: Outside>(
    outside: &mut O,
    plan: &Plan,
    kept: Kept,
    run: &mut Run,
    place: usize,
    work: &mut Workspace,
) -> Result<(), StopCause>
    requires place { place < length plan.now.actors }
    requires node { is_node_at plan.now place ≡ true }
    requires kept { (records : List Record) × IsKeptAt plan.now place records kept }
    requires next { length run.old.members ≡ place }
    requires ready { IsReady plan.now run.old (O.told outside.old) }
    ensures done { (list : List (List Record)) (records : List Record) → slice_get list place ≡ Some records →
        IsKeptAt plan.now place records kept →
        Goes (setting plan.now list) (O.told outside.old) run.old (at_place 0 place Starting) (O.told outside.new)
        run.new (onward plan.now 0 place) result }
    ensures ready { OnOk result (IsReady plan.now run.new (O.told outside.new)) }
    ensures more { OnOk result (length run.new.members ≡ place + 1) }
{
    match read_clock(outside, run) {
        Err(stop) => Err(stop),
        Ok(_) => join(outside, plan, kept, run, place, work),
    }
}

/// The start of the actor at a place: a node reads the clock first.
fn start<O: Outside>(
    outside: &mut O,
    plan: &Plan,
    kept: Kept,
    run: &mut Run,
    place: usize,
    work: &mut Workspace,
) -> Result<(), StopCause>
    requires place { place < length plan.now.actors }
    requires kept { (records : List Record) × IsKeptAt plan.now place records kept }
    requires next { length run.old.members ≡ place }
    requires ready { IsReady plan.now run.old (O.told outside.old) }
    ensures done { (list : List (List Record)) (records : List Record) → slice_get list place ≡ Some records →
        IsKeptAt plan.now place records kept →
        Goes (setting plan.now list) (O.told outside.old) run.old (at_place 0 place Starting) (O.told outside.new)
        run.new (onward plan.now 0 place) result }
    ensures ready { OnOk result (IsReady plan.now run.new (O.told outside.new)) }
    ensures more { OnOk result (length run.new.members ≡ place + 1) }
{
    if plan.is_node_at(place) {
        start_node(outside, plan, kept, run, place, work)
    } else {
        join(outside, plan, kept, run, place, work)
    }
}

/// The start of the actor at a place, from what is kept of it. That is not there any more then.
fn start_next<O: Outside>(
    outside: &mut O,
    plan: &Plan,
    kept: &mut Vec<Option<Kept>>,
    run: &mut Run,
    place: usize,
    work: &mut Workspace,
) -> Result<(), StopCause>
    requires place { place < length plan.now.actors }
    requires next { length run.old.members ≡ place }
    requires ready { IsReady plan.now run.old (O.told outside.old) }
    requires kept { (list : List (List Record)) × AreKept plan.now place list kept.old.items }
    ensures done { (list : List (List Record)) → AreKept plan.now place list kept.old.items →
        Goes (setting plan.now list) (O.told outside.old) run.old (coming plan.now 0 place) (O.told outside.new) run.new
        (coming plan.now 0 (place + 1)) result }
    ensures kept { (list : List (List Record)) → AreKept plan.now place list kept.old.items →
        AreKept plan.now (place + 1) list kept.new.items }
    ensures ready { OnOk result (IsReady plan.now run.new (O.told outside.new)) }
    ensures more { OnOk result (length run.new.members ≡ place + 1) }
{
    match kept[place].take() {
        None => unreachable!(),
        Some(kept) => start(outside, plan, kept, run, place, work),
    }
}

/// The starts of all actors, each from what is kept of it.
pub(crate) fn start_all<O: Outside>(
    outside: &mut O,
    plan: &Plan,
    kept: Vec<Option<Kept>>,
    run: &mut Run,
    work: &mut Workspace,
) -> Result<(), StopCause>
    requires next { length run.old.members ≡ 0 }
    requires ready { IsReady plan.now run.old (O.told outside.old) }
    requires kept { (list : List (List Record)) × AreKept plan.now 0 list kept.items }
    ensures done { (list : List (List Record)) → AreKept plan.now 0 list kept.items →
        Goes (setting plan.now list) (O.told outside.old) run.old (arrive plan.now 0 0) (O.told outside.new) run.new
        (arrive plan.now 1 0) result }
    ensures ready { OnOk result (IsReady plan.now run.new (O.told outside.new)) }
    ensures all { OnOk result (length run.new.members ≡ length plan.now.actors) }
{
    let mut kept = kept;
    for place in 0..plan.len() {
        start_next(outside, plan, &mut kept, run, place, work)?;
    }
    Ok(())
}
