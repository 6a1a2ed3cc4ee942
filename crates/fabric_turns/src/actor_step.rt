// A step of an actor: done whole before the next thing comes.
ghost use Rattle.std.specs.Prelude.{◌≡◌, ◌<◌, ◌∷◌, ℕ, List, length};
ghost use Rattle.edge_io.specs.Arrivals.{IsListening};
ghost use Rattle.fabric_terms.specs.declared.record.Record.{Record};
ghost use Rattle.fabric_turns.specs.Moves.{Reaches};
ghost use Rattle.fabric_turns.specs.Runs.{IsReady, IsStep, Meets};
ghost use Rattle.fabric_turns.specs.Steps.{CarriesThrough, left_at, work_in};
ghost use Rattle.node_core.specs.NodeEffects.{left_in};
ghost use Rattle.node_core.specs.Nodes.{FitsInput};
ghost use Rattle.edge_io.specs.Told.{Told};
ghost use Rattle.turn_effects.specs.Carried.{CarriesOut};
ghost use Rattle.turn_members.specs.Members.{IsDeedOf};
ghost use Rattle.turn_rules.specs.Happenings.{Happening, History};
ghost use Rattle.turn_rules.specs.Order.{TurnPosition};
ghost use Rattle.turn_rules.specs.Whole.{setting};

use crate::run::Run;
use crate::turn::ActorTurn;
use crate::workspace::Workspace;
use edge_io::Outside;
use fabric_terms::{FabricConfig, Head};
use ring_node::Input;
use turn_effects::{StepEffects, carry_out};
use turn_members::ArbiterError;
use turn_rules::{Plan, StopCause};

/// Does what a step under this head has left in the workspace to do.
fn carry_left<O: Outside>(
    outside: &mut O,
    config: &FabricConfig,
    head: &Head,
    work: &mut Workspace,
) -> Result<(), StopCause>
    requires listens { IsListening head.now.who.actor (O.told outside.old).opened }
    requires deed { (actor : ℕ) × IsDeedOf actor (record { head = head.now; outcome = left_in work.old.effects.value }) }
    ensures { CarriesOut (work_in config.now (record { head = head.now; outcome = left_in work.old.effects.value }))
        (O.told outside.old) (O.told outside.new) result }
{
    let effects = StepEffects {
        head,
        records: work.effects.records(),
        frames: work.effects.frames(),
        reports: work.effects.reports(),
    };
    carry_out(outside, config, &effects, &mut work.buffers)
}

/// Does what a step of the actor at a place has left to do, and ends the run where the actor has left.
pub(crate) fn carry_through<O: Outside>(
    outside: &mut O,
    plan: &Plan,
    run: &Run,
    place: usize,
    head: &Head,
    work: &mut Workspace,
) -> Result<(), StopCause>
    requires place { place < length run.now.members }
    requires listens { IsListening head.now.who.actor (O.told outside.old).opened }
    requires deed { (actor : ℕ) × IsDeedOf actor (record { head = head.now; outcome = left_in work.old.effects.value }) }
    ensures { CarriesThrough
        (work_in plan.now.config (record { head = head.now; outcome = left_in work.old.effects.value }))
        (left_at run.now.members place) (O.told outside.old) (O.told outside.new) result }
{
    carry_left(outside, plan.config(), head, work)?;
    match run.left_at(place) {
        None => Ok(()),
        Some(why) => Err(StopCause::Left(why)),
    }
}

/// The step of an actor in a turn, carried out.
pub(crate) fn act<O: Outside>(
    outside: &mut O,
    plan: &Plan,
    run: &mut Run,
    at: ActorTurn,
    input: &Input,
    work: &mut Workspace,
) -> Result<(), StopCause>
    requires place { at.place < length run.old.members }
    requires ready { IsReady plan.now run.old (O.told outside.old) }
    requires input { FitsInput input.now }
    ensures done { (kept : List (List Record)) (a : Told) (h : History) (x : Happening) (p : TurnPosition) →
        Meets (setting plan.now kept) a (O.told outside.old) run.old h x p →
        IsStep (setting plan.now kept) h x at.turn.number at.place input.now →
        Reaches (setting plan.now kept) a (O.told outside.new) run.new (x ∷ h) p result }
    ensures ready { IsReady plan.now run.new (O.told outside.new) }
    ensures same { length run.new.members ≡ length run.old.members }
{
    match run.step_into(at.turn.number, at.place, input, work) {
        Err(ArbiterError::OutOfMemory) => Err(StopCause::OutOfMemory),
        Err(ArbiterError::TableFull) => Err(StopCause::TableFull),
        Ok(head) => carry_through(outside, plan, run, at.place, &head, work),
    }
}
