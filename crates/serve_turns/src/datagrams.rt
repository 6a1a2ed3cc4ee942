// What has arrived at the actor: each datagram that is a frame is one step.
ghost use Rattle.std.specs.Prelude.{◌<◌, ◌+◌, ◌∷◌, ℕ, List, []};
ghost use Rattle.fabric_turns.specs.Moves.{at_place};
ghost use Rattle.serve_rules.specs.Events.{Event, OfTurn};
ghost use Rattle.serve_turns.specs.Live.{Beginning, around};
ghost use Rattle.serve_turns.specs.Moves.{Meets, Moves, Reaches};
ghost use Rattle.serve_turns.specs.Steps.{CanGoOn};
ghost use Rattle.serve_turns.specs.Turns.{Asks};
ghost use Rattle.turn_rules.specs.Happenings.{Datagram, Hears};
ghost use Rattle.turn_rules.specs.Order.{Busy, TurnPosition, hearing, heard_all};

use crate::audience::Audience;
use crate::handover::Handover;
use crate::live::Live;
use crate::policy::Policy;
use crate::service::Service;
use crate::stepping::act_told;
use door_io::Clients;
use edge_io::DATAGRAM_BYTES;
use fabric_terms::{Body, Message};
use ring_node::Input;
use ring_points::{FRAME_LIMIT, Who};
use ring_wire::decode_into;
use turn_rules::StopCause;

/// The most datagrams that an actor hears in one turn.
const MAX_HEARD: u64 = 64;

// A datagram holds a whole frame.
const _: () = prove!(FRAME_LIMIT <= DATAGRAM_BYTES);

/// A place that a frame is read into.
fn empty_place() -> Message {
    let nobody = Who {
        actor: 0,
        instance: 0,
    };
    Message {
        from: nobody,
        to: nobody,
        body: Body::Hello { mine: 0 },
    }
}

/// A datagram that has come. What is no frame changes nothing.
fn take_datagram<O: Handover, C: Clients, P: Policy>(
    outside: &mut O,
    audience: &mut Audience<C, P>,
    service: &Service,
    live: &mut Live,
    turn: u64,
    bytes: &[u8],
) -> Result<(), StopCause>
    requires can { CanGoOn service.now.plan live.old (O.told outside.old) }
    ensures done { (o : Beginning) (es : List Event) (p : TurnPosition) →
        Meets service.now.plan o
        (around (O.told outside.old) (C.told audience.old.clients) (P.advised audience.old.policy)) live.old es
        (record { turn = turn; coming = OfTurn (Hears (Datagram bytes.now)) })
        (record { turn = turn; place = 0; comes = Hears (Datagram bytes.now) }) p →
        Reaches service.now.plan o
        (around (O.told outside.new) (C.told audience.new.clients) (P.advised audience.new.policy)) live.new
        (record { turn = turn; coming = OfTurn (Hears (Datagram bytes.now)) } ∷ es) p result }
    ensures can { CanGoOn service.now.plan live.new (O.told outside.new) }
{
    let mut message = empty_place();
    match decode_into(bytes, &mut message) {
        Err(_) => Ok(()),
        Ok(()) => {
            let input = Input::Frame(message);
            act_told(outside, audience, service, live, turn, &input)
        }
    }
}

/// Asks the links once what has come. Says whether it was a datagram.
fn hear_one<O: Handover, C: Clients, P: Policy>(
    outside: &mut O,
    audience: &mut Audience<C, P>,
    service: &Service,
    live: &mut Live,
    turn: u64,
    buffer: &mut [u8; DATAGRAM_BYTES],
) -> Result<bool, StopCause>
    requires can { CanGoOn service.now.plan live.old (O.told outside.old) }
    ensures done { (n : ℕ) → n < MAX_HEARD →
        Asks service.now.plan
        (around (O.told outside.old) (C.told audience.old.clients) (P.advised audience.old.policy)) live.old
        (hearing service.now.plan turn 0 n)
        (around (O.told outside.new) (C.told audience.new.clients) (P.advised audience.new.policy)) live.new
        (hearing service.now.plan turn 0 (n + 1)) (heard_all service.now.plan turn 0) result }
    ensures can { CanGoOn service.now.plan live.new (O.told outside.new) }
{
    match outside.receive(service.actor(), buffer) {
        Err(_) => Ok(false),
        Ok(None) => Ok(false),
        Ok(Some(count)) => {
            take_datagram(outside, audience, service, live, turn, &buffer[..count])?;
            Ok(true)
        }
    }
}

/// Hears what has come: at most `MAX_HEARD` datagrams.
pub(crate) fn hear<O: Handover, C: Clients, P: Policy>(
    outside: &mut O,
    audience: &mut Audience<C, P>,
    service: &Service,
    live: &mut Live,
    turn: u64,
    buffer: &mut [u8; DATAGRAM_BYTES],
) -> Result<(), StopCause>
    requires can { CanGoOn service.now.plan live.old (O.told outside.old) }
    ensures done { Moves service.now.plan
        (around (O.told outside.old) (C.told audience.old.clients) (P.advised audience.old.policy)) live.old
        (at_place turn 0 (Busy [] 0))
        (around (O.told outside.new) (C.told audience.new.clients) (P.advised audience.new.policy)) live.new
        (heard_all service.now.plan turn 0) result }
    ensures can { CanGoOn service.now.plan live.new (O.told outside.new) }
{
    for _heard in 0..MAX_HEARD {
        if !hear_one(outside, audience, service, live, turn, buffer)? {
            return Ok(());
        }
    }
    Ok(())
}
