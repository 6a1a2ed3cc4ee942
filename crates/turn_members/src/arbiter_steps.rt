// The steps of an arbitrator.
ghost use Rattle.std.specs.Prelude.{◌≡◌, [], ℕ, Option, IfOk, OnErr, IsErrOf, true, false};
ghost use Rattle.fabric_terms.specs.declared.config.FabricConfig.{FabricConfig as Configuration};
ghost use Rattle.ring_points.specs.Whos.{arbiter_actor};
ghost use Rattle.turn_members.specs.Members.{Does, state_of};
ghost use Rattle.turn_rules.specs.Steps.{Arbiter as Arbitrator, exceeds, stepped};

use crate::answer::Room;
use crate::deed::Deed;
use arbiter_core::{Arbiter, ArbiterError};
use fabric_terms::{Head, Message};
use node_core::{Batch, Outcome};
use ring_node::Input;
use ring_points::Who;
use std::alloc::Global;

/// Nothing is left to do.
pub(crate) fn nothing(alloc: Global) -> Outcome
    ensures records { result.records ≡ [] }
    ensures frames { result.frames ≡ [] }
    ensures reports { result.reports ≡ [] }
{
    Outcome {
        records: Batch::new(Vec::new(alloc)),
        frames: Batch::new(Vec::new(alloc)),
        reports: Batch::new(Vec::new(alloc)),
    }
}

/// The head of an arbitrator's reports.
pub(crate) fn arbiter_head(turn: u64, actor: u16) -> Head
    ensures { result ≡ record {
      line = turn;
      time = None;
      who = record { actor = actor; instance = 0 };
      reading = None;
    } }
{
    Head {
        line: turn,
        time: None,
        who: Who { actor, instance: 0 },
        reading: None,
    }
}

/// An arbitrator hears a message.
fn arbiter_hear(
    arbiter: &mut Arbiter,
    actor: u16,
    alloc: Global,
    turn: u64,
    message: &Message,
) -> Result<Deed, ArbiterError>
    requires named { actor ≡ arbiter_actor arbiter.old.number }
    requires room { exceeds (Arbitrator arbiter.old.number (state_of arbiter.old)) ≡ false }
    ensures does { IfOk result (λ deed. (c : Configuration) (last : Option ℕ) →
        Does (stepped c turn last (Input.Frame message.now) (Arbitrator arbiter.old.number (state_of arbiter.old)))
        (Arbitrator arbiter.new.number (state_of arbiter.new)) deed) }
    ensures full { IsErrOf result ArbiterError.TableFull → (c : Configuration) (last : Option ℕ) →
        exceeds (stepped c turn last (Input.Frame message.now)
        (Arbitrator arbiter.old.number (state_of arbiter.old))).member ≡ true }
    ensures number { (c : Configuration) → arbiter.new.number ≡ arbiter.old.number }
    ensures refused { OnErr result (arbiter.new ≡ arbiter.old) }
{
    let room = Room::new(alloc)?;
    let answer = arbiter.on_frame(message)?;
    let head = arbiter_head(turn, actor);
    let outcome = room.taking(alloc, head.who, answer);
    Ok(Deed { head, outcome })
}

/// An arbitrator does nothing but hear.
fn arbiter_idle(actor: u16, alloc: Global, turn: u64) -> Deed
    ensures head { result.head ≡ record {
      line = turn;
      time = None;
      who = record { actor = actor; instance = 0 };
      reading = None;
    } }
    ensures records { result.outcome.records ≡ [] }
    ensures frames { result.outcome.frames ≡ [] }
    ensures reports { result.outcome.reports ≡ [] }
{
    Deed {
        head: arbiter_head(turn, actor),
        outcome: nothing(alloc),
    }
}

/// The step of an arbitrator under its actor's number.
pub(crate) fn arbiter_step(
    arbiter: &mut Arbiter,
    actor: u16,
    alloc: Global,
    turn: u64,
    input: &Input,
) -> Result<Deed, ArbiterError>
    requires named { actor ≡ arbiter_actor arbiter.old.number }
    requires room { exceeds (Arbitrator arbiter.old.number (state_of arbiter.old)) ≡ false }
    ensures does { IfOk result (λ deed. (c : Configuration) (last : Option ℕ) →
        Does (stepped c turn last input.now (Arbitrator arbiter.old.number (state_of arbiter.old)))
        (Arbitrator arbiter.new.number (state_of arbiter.new)) deed) }
    ensures full { IsErrOf result ArbiterError.TableFull → (c : Configuration) (last : Option ℕ) →
        exceeds (stepped c turn last input.now (Arbitrator arbiter.old.number (state_of arbiter.old))).member ≡ true }
    ensures number { (c : Configuration) → arbiter.new.number ≡ arbiter.old.number }
    ensures refused { OnErr result (arbiter.new ≡ arbiter.old) }
{
    match input {
        Input::Frame(message) => arbiter_hear(arbiter, actor, alloc, turn, message),
        Input::Fire => Ok(arbiter_idle(actor, alloc, turn)),
        Input::Do(_) => Ok(arbiter_idle(actor, alloc, turn)),
    }
}
