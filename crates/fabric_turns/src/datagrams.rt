// What has arrived at an actor: each datagram that is a frame is one step.
ghost use Rattle.std.specs.Prelude.{◌≡◌, ◌<◌, ◌+◌, ◌∷◌, [], ℕ, List, length, Some, None, true, false};
ghost use Rattle.edge_io.specs.Told.{Told};
ghost use Rattle.fabric_terms.specs.declared.record.Record.{Record};
ghost use Rattle.fabric_turns.specs.Moves.{Reaches, Goes, Asks, at_place};
ghost use Rattle.fabric_turns.specs.Runs.{IsReady, Meets};
ghost use Rattle.turn_rules.specs.Happenings.{Datagram, Hears, History};
ghost use Rattle.turn_rules.specs.Order.{TurnPosition, Busy, hearing, heard_all};
ghost use Rattle.turn_rules.specs.Whole.{setting};

use crate::actor_step::act;
use crate::run::Run;
use crate::turn::ActorTurn;
use crate::workspace::Workspace;
use edge_io::{DATAGRAM_BYTES, Outside};
use fabric_terms::{Body, Message};
use ring_node::Input;
use ring_points::{FRAME_LIMIT, Who};
use ring_wire::decode_into;
use turn_rules::{Plan, StopCause};

/// A place that a frame is read into.
fn empty_place() -> Message {
    let nobody = Who {
        actor: 0,
        instance: 0,
    };
    Message {
        from: nobody,
        to: nobody,
        body: Body::Hello { mine: 0 },
    }
}

/// A datagram that has come to the actor at a place. What is no frame changes nothing.
fn take_datagram<O: Outside>(
    outside: &mut O,
    plan: &Plan,
    run: &mut Run,
    at: ActorTurn,
    bytes: &[u8],
    work: &mut Workspace,
) -> Result<(), StopCause>
    requires place { at.place < length run.old.members }
    requires ready { IsReady plan.now run.old (O.told outside.old) }
    ensures done { (kept : List (List Record)) (a : Told) (h : History) (p : TurnPosition) →
        Meets (setting plan.now kept) a (O.told outside.old) run.old h
        (record { turn = at.turn.number; place = at.place; comes = Hears (Datagram bytes.now) }) p →
        Reaches (setting plan.now kept) a (O.told outside.new) run.new
        (record { turn = at.turn.number; place = at.place; comes = Hears (Datagram bytes.now) } ∷ h) p result }
    ensures ready { IsReady plan.now run.new (O.told outside.new) }
    ensures same { length run.new.members ≡ length run.old.members }
{
    // The frame is read where the step finds it: a message is half a kilobyte.
    let mut input = Input::Frame(empty_place());
    let Input::Frame(message) = &mut input else {
        unreachable!()
    };
    match decode_into(bytes, message) {
        Err(_) => Ok(()),
        Ok(()) => act(outside, plan, run, at, &input, work),
    }
}

/// The most datagrams that an actor hears in one turn.
const MAX_DATAGRAMS: u64 = 64;

// A datagram holds a whole frame.
const _: () = prove!(FRAME_LIMIT <= DATAGRAM_BYTES);

/// Asks the links once what has come to the actor at a place. Says whether it was a datagram.
fn hear_one<O: Outside>(
    outside: &mut O,
    plan: &Plan,
    run: &mut Run,
    at: ActorTurn,
    buffer: &mut [u8; DATAGRAM_BYTES],
    work: &mut Workspace,
) -> Result<bool, StopCause>
    requires place { at.place < length run.old.members }
    requires ready { IsReady plan.now run.old (O.told outside.old) }
    requires within { at.place < length plan.now.actors }
    ensures done { (kept : List (List Record)) (n : ℕ) → n < MAX_DATAGRAMS →
        Asks (setting plan.now kept) (O.told outside.old) run.old
        (hearing plan.now at.turn.number at.place n) (O.told outside.new) run.new
        (hearing plan.now at.turn.number at.place (n + 1)) (heard_all plan.now at.turn.number at.place) result }
    ensures ready { IsReady plan.now run.new (O.told outside.new) }
    ensures same { length run.new.members ≡ length run.old.members }
{
    match outside.receive(plan.actor_at(at.place), buffer) {
        Err(_) => Ok(false),
        Ok(None) => Ok(false),
        Ok(Some(count)) => {
            take_datagram(outside, plan, run, at, &buffer[..count], work)?;
            Ok(true)
        }
    }
}

/// Hears what has come to the actor at a place: at most `MAX_DATAGRAMS` datagrams.
pub(crate) fn hear<O: Outside>(
    outside: &mut O,
    plan: &Plan,
    run: &mut Run,
    at: ActorTurn,
    buffer: &mut [u8; DATAGRAM_BYTES],
    work: &mut Workspace,
) -> Result<(), StopCause>
    requires place { at.place < length run.old.members }
    requires ready { IsReady plan.now run.old (O.told outside.old) }
    requires within { at.place < length plan.now.actors }
    ensures done { (kept : List (List Record)) →
        Goes (setting plan.now kept) (O.told outside.old) run.old
        (at_place at.turn.number at.place (Busy [] 0)) (O.told outside.new) run.new
        (heard_all plan.now at.turn.number at.place) result }
    ensures ready { IsReady plan.now run.new (O.told outside.new) }
    ensures same { length run.new.members ≡ length run.old.members }
{
    for _heard in 0..MAX_DATAGRAMS {
        if !hear_one(outside, plan, run, at, buffer, work)? {
            return Ok(());
        }
    }
    Ok(())
}
