ghost use Rattle.std.specs.Prelude.{◌≡◌, ◌<◌, ◌+◌, OnOk, List, length, true};
ghost use Rattle.fabric_terms.specs.declared.record.Record.{Record};
ghost use Rattle.fabric_turns.specs.Moves.{Goes, at_place};
ghost use Rattle.fabric_turns.specs.Runs.{IsReady};
ghost use Rattle.fabric_turns.specs.Windows.{IsTurnOf};
ghost use Rattle.turn_rules.specs.Order.{Turning, Firing, arrive, coming, onward};
ghost use Rattle.turn_rules.specs.Plans.{is_node_at};
ghost use Rattle.turn_rules.specs.Whole.{setting};

use crate::actor_step::act;
use crate::clock::read_clock;
use crate::commands::bid_all;
use crate::datagrams::hear;
use crate::run::Run;
use crate::turn::{ActorTurn, Turn, turn_of};
use crate::workspace::Workspace;
use edge_io::{DATAGRAM_BYTES, Outside};
use ring_node::Input;
use turn_rules::{Plan, StopCause};

/// The firing of the node at a place.
fn fire<O: Outside>(
    outside: &mut O,
    plan: &Plan,
    run: &mut Run,
    at: ActorTurn,
    work: &mut Workspace,
) -> Result<(), StopCause>
    requires place { at.place < length run.old.members }
    requires ready { IsReady plan.now run.old (O.told outside.old) }
    ensures done { (kept : List (List Record)) →
        Goes (setting plan.now kept) (O.told outside.old) run.old
        (at_place at.turn.number at.place Firing) (O.told outside.new) run.new
        (onward plan.now at.turn.number at.place) result }
    ensures ready { IsReady plan.now run.new (O.told outside.new) }
    ensures same { length run.new.members ≡ length run.old.members }
{
    act(outside, plan, run, at, &Input::Fire, work)
}

/// The turn of the node at a place.
fn node_turn<O: Outside>(
    outside: &mut O,
    plan: &Plan,
    run: &mut Run,
    at: ActorTurn,
    buffer: &mut [u8; DATAGRAM_BYTES],
    work: &mut Workspace,
) -> Result<(), StopCause>
    requires place { at.place < length run.old.members }
    requires ready { IsReady plan.now run.old (O.told outside.old) }
    requires within { at.place < length plan.now.actors }
    requires turn { IsTurnOf plan.now.orders at.turn }
    requires node { is_node_at plan.now at.place ≡ true }
    ensures done { (kept : List (List Record)) →
        Goes (setting plan.now kept) (O.told outside.old) run.old
        (at_place at.turn.number at.place Turning) (O.told outside.new) run.new
        (onward plan.now at.turn.number at.place) result }
    ensures ready { OnOk result (IsReady plan.now run.new (O.told outside.new)) }
    ensures same { OnOk result (length run.new.members ≡ length run.old.members) }
{
    read_clock(outside, run)?;
    bid_all(outside, plan, run, at, work)?;
    hear(outside, plan, run, at, buffer, work)?;
    fire(outside, plan, run, at, work)
}

/// The turn of the actor at a place: an arbitrator only hears. Turns count from 1.
fn take_turn<O: Outside>(
    outside: &mut O,
    plan: &Plan,
    run: &mut Run,
    at: ActorTurn,
    buffer: &mut [u8; DATAGRAM_BYTES],
    work: &mut Workspace,
) -> Result<(), StopCause>
    requires place { at.place < length run.old.members }
    requires ready { IsReady plan.now run.old (O.told outside.old) }
    requires within { at.place < length plan.now.actors }
    requires turn { IsTurnOf plan.now.orders at.turn }
    requires counted { 0 < at.turn.number }
    ensures done { (kept : List (List Record)) →
        Goes (setting plan.now kept) (O.told outside.old) run.old
        (coming plan.now at.turn.number at.place) (O.told outside.new) run.new
        (coming plan.now at.turn.number (at.place + 1)) result }
    ensures ready { OnOk result (IsReady plan.now run.new (O.told outside.new)) }
    ensures same { OnOk result (length run.new.members ≡ length run.old.members) }
{
    if plan.is_node_at(at.place) {
        node_turn(outside, plan, run, at, buffer, work)
    } else {
        hear(outside, plan, run, at, buffer, work)
    }
}

/// A turn of each actor.
fn turn_all<O: Outside>(
    outside: &mut O,
    plan: &Plan,
    run: &mut Run,
    turn: Turn,
    buffer: &mut [u8; DATAGRAM_BYTES],
    work: &mut Workspace,
) -> Result<(), StopCause>
    requires all { length run.old.members ≡ length plan.now.actors }
    requires ready { IsReady plan.now run.old (O.told outside.old) }
    requires turn { IsTurnOf plan.now.orders turn }
    requires counted { 0 < turn.number }
    ensures done { (kept : List (List Record)) →
        Goes (setting plan.now kept) (O.told outside.old) run.old
        (arrive plan.now turn.number 0) (O.told outside.new) run.new
        (arrive plan.now (turn.number + 1) 0) result }
    ensures ready { OnOk result (IsReady plan.now run.new (O.told outside.new)) }
    ensures same { OnOk result (length run.new.members ≡ length run.old.members) }
{
    for place in 0..plan.len() {
        take_turn(outside, plan, run, ActorTurn { turn, place }, buffer, work)?;
    }
    Ok(())
}

/// All turns.
pub(crate) fn take_turns<O: Outside>(
    outside: &mut O,
    plan: &Plan,
    run: &mut Run,
    work: &mut Workspace,
) -> Result<(), StopCause>
    requires all { length run.old.members ≡ length plan.now.actors }
    requires ready { IsReady plan.now run.old (O.told outside.old) }
    ensures done { (kept : List (List Record)) →
        Goes (setting plan.now kept) (O.told outside.old) run.old (arrive plan.now 1 0) (O.told outside.new) run.new
        (arrive plan.now (plan.now.turns + 1) 0) result }
{
    let mut buffer = [0u8; DATAGRAM_BYTES];
    let mut first = 0;
    for number in 0..plan.turns() {
        let turn = turn_of(plan.orders(), number + 1, first);
        turn_all(outside, plan, run, turn, &mut buffer, work)?;
        first = turn.end;
    }
    Ok(())
}
