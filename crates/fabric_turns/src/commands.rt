// The commands of a node's turn: each is one step.
ghost use Rattle.std.specs.Prelude.{◌≡◌, ◌<◌, ◌+◌, ◌∷◌, [], ℕ, List, drop, length, slice_get, Some};
ghost use Rattle.fabric_terms.specs.declared.record.Record.{Record};
ghost use Rattle.fabric_turns.specs.Moves.{Goes, at_place};
ghost use Rattle.fabric_turns.specs.Runs.{IsReady};
ghost use Rattle.fabric_turns.specs.Windows.{IsTurnOf};
ghost use Rattle.turn_rules.specs.Order.{Busy};
ghost use Rattle.turn_rules.specs.Plans.{orders_at, commands_in};
ghost use Rattle.turn_rules.specs.Whole.{setting};
ghost use Rattle.fabric_terms.specs.Ranges.{FitsCommand};
ghost use Rattle.fabric_terms.specs.declared.command.Command.{Command as CommandOf};
ghost use Rattle.turn_rules.specs.declared.order.Order.{Order as OrderOf};

use crate::actor_step::act;
use crate::run::Run;
use crate::turn::ActorTurn;
use crate::workspace::Workspace;
use edge_io::Outside;
use fabric_terms::Command;
use ring_node::Input;
use turn_rules::{Plan, StopCause};

/// One command of the node at a place.
fn bid<O: Outside>(
    outside: &mut O,
    plan: &Plan,
    run: &mut Run,
    at: ActorTurn,
    command: Command,
    work: &mut Workspace,
) -> Result<(), StopCause>
    requires place { at.place < length run.old.members }
    requires ready { IsReady plan.now run.old (O.told outside.old) }
    requires command { FitsCommand command }
    ensures done { (kept : List (List Record)) (rest : List CommandOf) (n : ℕ) →
        Goes (setting plan.now kept) (O.told outside.old) run.old
        (at_place at.turn.number at.place (Busy (command ∷ rest) n)) (O.told outside.new) run.new
        (at_place at.turn.number at.place (Busy rest n)) result }
    ensures ready { IsReady plan.now run.new (O.told outside.new) }
    ensures same { length run.new.members ≡ length run.old.members }
{
    act(outside, plan, run, at, &Input::Do(command), work)
}

/// One of the turn's commands, if it is for the node at this place.
fn bid_order<O: Outside>(
    outside: &mut O,
    plan: &Plan,
    run: &mut Run,
    at: ActorTurn,
    index: usize,
    work: &mut Workspace,
) -> Result<(), StopCause>
    requires place { at.place < length run.old.members }
    requires ready { IsReady plan.now run.old (O.told outside.old) }
    requires known { index < length plan.now.orders }
    requires turn { (o : OrderOf) → slice_get plan.now.orders index ≡ Some o → o.turn ≡ at.turn.number }
    ensures done { (kept : List (List Record)) →
        Goes (setting plan.now kept) (O.told outside.old) run.old
        (at_place at.turn.number at.place (Busy (commands_in at.turn.number at.place (drop index plan.now.orders)) 0))
        (O.told outside.new) run.new
        (at_place at.turn.number at.place
        (Busy (commands_in at.turn.number at.place (drop (index + 1) plan.now.orders)) 0)) result }
    ensures ready { IsReady plan.now run.new (O.told outside.new) }
    ensures same { length run.new.members ≡ length run.old.members }
{
    let orders = plan.orders();
    if orders.place_at(index) == at.place {
        bid(outside, plan, run, at, orders.command_at(index), work)
    } else {
        Ok(())
    }
}

/// The commands of a node's turn.
pub(crate) fn bid_all<O: Outside>(
    outside: &mut O,
    plan: &Plan,
    run: &mut Run,
    at: ActorTurn,
    work: &mut Workspace,
) -> Result<(), StopCause>
    requires place { at.place < length run.old.members }
    requires ready { IsReady plan.now run.old (O.told outside.old) }
    requires turn { IsTurnOf plan.now.orders at.turn }
    ensures done { (kept : List (List Record)) →
        Goes (setting plan.now kept) (O.told outside.old) run.old
        (at_place at.turn.number at.place (Busy (orders_at plan.now at.turn.number at.place) 0)) (O.told outside.new)
        run.new (at_place at.turn.number at.place (Busy [] 0)) result }
    ensures ready { IsReady plan.now run.new (O.told outside.new) }
    ensures same { length run.new.members ≡ length run.old.members }
{
    for index in at.turn.first..at.turn.end {
        bid_order(outside, plan, run, at, index, work)?;
    }
    Ok(())
}
