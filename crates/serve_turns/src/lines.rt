// The lines of clients. Each is answered: refused, at once, or by the step that it makes.
ghost use Rattle.std.specs.Prelude.{◌≡◌, ◌∷◌, [], None, Some, false};
ghost use Rattle.door_io.specs.Doors.{Asked as AskedAtDoor, Gone as GoneAtDoor};
ghost use Rattle.door_lines.specs.Requests.{FitsAsked};
ghost use Rattle.edge_io.specs.Told.{Told};
ghost use Rattle.fabric_turns.specs.Moves.{at_place};
ghost use Rattle.serve_rules.specs.Lines.{Refused, let_go_by, request_line};
ghost use Rattle.serve_rules.specs.Services.{speaker_of};
ghost use Rattle.serve_turns.specs.Live.{Around, around};
ghost use Rattle.serve_turns.specs.Moves.{Moves, Takes, TakesAs, went_well};
ghost use Rattle.serve_turns.specs.Steps.{CanGoOn};
ghost use Rattle.turn_rules.specs.Order.{Busy, TurnPosition};
ghost use Rattle.turn_rules.specs.Plans.{Plan as PlanOf};

use crate::answers::answer_request;
use crate::asked_commands::{AskedCommand, take_command};
use crate::audience::Audience;
use crate::handover::Handover;
use crate::live::Live;
use crate::policy::Policy;
use crate::service::Service;
use door_io::{Clients, MAX_ASKED, Said};
use door_lines::{Asked, Fault, Request, Speaker, read_asked, read_done};
use open_answers::Asker;
use turn_rules::StopCause;

/// The most lines of clients in one turn.
pub const MAX_TURN_LINES: u64 = 16;

/// A line of a client.
#[derive(Drop)]
struct Spoken<'a> {
    client: u32,
    line: &'a [u8],
}

/// What a client asks.
#[derive(Drop)]
struct AskedBy {
    client: u32,
    asked: Asked,
}

/// Refuses a line.
pub(crate) fn refuse_line<C: Clients, P: Policy>(
    audience: &mut Audience<C, P>,
    live: &mut Live,
    client: u32,
    tag: Option<u32>,
    fault: Fault,
)
    requires going { live.old.ending ≡ false }
    ensures done { (plan : PlanOf) (told : Told) (p : TurnPosition) →
        TakesAs plan client (Refused tag fault)
        (around told (C.told audience.old.clients) (P.advised audience.old.policy)) live.old p
        (around told (C.told audience.new.clients) (P.advised audience.new.policy)) live.new p went_well }
    ensures same { live.new ≡ live.old }
{
    live.sessions
        .refuse(&mut audience.clients, client, tag, fault);
}

/// What a client asks, by its kind.
fn take_asked<O: Handover, C: Clients, P: Policy>(
    outside: &mut O,
    audience: &mut Audience<C, P>,
    service: &Service,
    live: &mut Live,
    turn: u64,
    by: AskedBy,
) -> Result<(), StopCause>
    requires can { CanGoOn service.now.plan live.old (O.told outside.old) }
    requires fits { FitsAsked (speaker_of service.now.plan live.old.sessions by.client) by.asked }
    ensures done { TakesAs service.now.plan by.client
        (request_line service.now.plan live.old.sessions by.client by.asked.tag by.asked.request)
        (around (O.told outside.old) (C.told audience.old.clients) (P.advised audience.old.policy)) live.old
        (at_place turn 0 (Busy [] 0))
        (around (O.told outside.new) (C.told audience.new.clients) (P.advised audience.new.policy)) live.new
        (at_place turn 0 (Busy [] 0)) result }
    ensures can { live.new.ending ≡ false → CanGoOn service.now.plan live.new (O.told outside.new) }
{
    let asker = Asker {
        client: by.client,
        tag: by.asked.tag,
    };
    match by.asked.request {
        Request::Command(command) => {
            let asked = AskedCommand { asker, command };
            take_command(outside, audience, service, live, turn, asked)
        }
        request => {
            answer_request(audience, service, live, asker, &request);
            Ok(())
        }
    }
}

/// The number of which this speaker says by a line that it has let go, if the line says so.
fn let_go_by(speaker: Speaker, line: &[u8]) -> Option<u64>
    ensures { result ≡ let_go_by speaker line.now }
{
    match speaker {
        Speaker::Parent => read_done(line).ok(),
        _ => None,
    }
}

/// A line of a client that lets go of nothing.
fn take_other<O: Handover, C: Clients, P: Policy>(
    outside: &mut O,
    audience: &mut Audience<C, P>,
    service: &Service,
    live: &mut Live,
    turn: u64,
    spoken: Spoken<'_>,
) -> Result<(), StopCause>
    requires can { CanGoOn service.now.plan live.old (O.told outside.old) }
    requires other { let_go_by (speaker_of service.now.plan live.old.sessions spoken.client) spoken.line.now ≡ None }
    ensures done { Takes service.now.plan (AskedAtDoor spoken.entry.client (Some spoken.entry.line.now) ∷ [])
        (around (O.told outside.old) (C.told audience.old.clients) (P.advised audience.old.policy)) live.old
        (at_place turn 0 (Busy [] 0))
        (around (O.told outside.new) (C.told audience.new.clients) (P.advised audience.new.policy)) live.new
        (at_place turn 0 (Busy [] 0)) result }
    ensures can { live.new.ending ≡ false → CanGoOn service.now.plan live.new (O.told outside.new) }
{
    let mut asked = Asked {
        tag: 0,
        request: Request::End,
    };
    match read_asked(
        service.speaker(live, spoken.client),
        spoken.line,
        &mut asked,
    ) {
        Err(bad) => {
            refuse_line(audience, live, spoken.client, bad.tag, Fault::Line);
            Ok(())
        }
        Ok(()) => {
            let by = AskedBy {
                client: spoken.client,
                asked,
            };
            take_asked(outside, audience, service, live, turn, by)
        }
    }
}

/// A line of a client, without its line feed.
fn take_line<O: Handover, C: Clients, P: Policy>(
    outside: &mut O,
    audience: &mut Audience<C, P>,
    service: &Service,
    live: &mut Live,
    turn: u64,
    spoken: Spoken<'_>,
) -> Result<(), StopCause>
    requires can { CanGoOn service.now.plan live.old (O.told outside.old) }
    ensures done { Takes service.now.plan (AskedAtDoor spoken.entry.client (Some spoken.entry.line.now) ∷ [])
        (around (O.told outside.old) (C.told audience.old.clients) (P.advised audience.old.policy)) live.old
        (at_place turn 0 (Busy [] 0))
        (around (O.told outside.new) (C.told audience.new.clients) (P.advised audience.new.policy)) live.new
        (at_place turn 0 (Busy [] 0)) result }
    ensures can { live.new.ending ≡ false → CanGoOn service.now.plan live.new (O.told outside.new) }
{
    match let_go_by(service.speaker(live, spoken.client), spoken.line) {
        None => take_other(outside, audience, service, live, turn, spoken),
        Some(number) => {
            outside.let_go(number);
            Ok(())
        }
    }
}

/// A client has gone: nothing is kept for it.
fn forget(live: &mut Live, client: u32)
    requires going { live.old.ending ≡ false }
    ensures done { (plan : PlanOf) (b : Around) (p : TurnPosition) →
        Takes plan (GoneAtDoor client ∷ []) b live.old p b live.new p went_well }
    ensures rest { live.new ≡ record live.old { sessions = live.new.sessions } }
{
    live.sessions.drop_client(client);
}

/// Takes one thing, if something has come at the door, and answers it. Says whether something had come.
fn take_one<O: Handover, C: Clients, P: Policy>(
    outside: &mut O,
    audience: &mut Audience<C, P>,
    service: &Service,
    live: &mut Live,
    turn: u64,
    buffer: &mut [u8; MAX_ASKED],
) -> Result<bool, StopCause>
    requires can { CanGoOn service.now.plan live.old (O.told outside.old) }
    ensures done { Moves service.now.plan
        (around (O.told outside.old) (C.told audience.old.clients) (P.advised audience.old.policy)) live.old
        (at_place turn 0 (Busy [] 0))
        (around (O.told outside.new) (C.told audience.new.clients) (P.advised audience.new.policy)) live.new
        (at_place turn 0 (Busy [] 0)) result }
    ensures can { live.new.ending ≡ false → CanGoOn service.now.plan live.new (O.told outside.new) }
{
    match audience.clients.next(buffer) {
        Said::Quiet => Ok(false),
        Said::Gone(client) => {
            forget(live, client);
            Ok(true)
        }
        Said::TooLong(client) => {
            refuse_line(audience, live, client, None, Fault::Large);
            Ok(true)
        }
        Said::Line(client, count) => {
            let line = &buffer[..count];
            take_line(
                outside,
                audience,
                service,
                live,
                turn,
                Spoken { client, line },
            )?;
            Ok(true)
        }
    }
}

/// Takes lines of clients, at most `MAX_TURN_LINES`, and none behind one that tells the process to end.
pub(crate) fn take_lines<O: Handover, C: Clients, P: Policy>(
    outside: &mut O,
    audience: &mut Audience<C, P>,
    service: &Service,
    live: &mut Live,
    turn: u64,
) -> Result<(), StopCause>
    requires can { CanGoOn service.now.plan live.old (O.told outside.old) }
    ensures done { Moves service.now.plan
        (around (O.told outside.old) (C.told audience.old.clients) (P.advised audience.old.policy)) live.old
        (at_place turn 0 (Busy [] 0))
        (around (O.told outside.new) (C.told audience.new.clients) (P.advised audience.new.policy)) live.new
        (at_place turn 0 (Busy [] 0)) result }
    ensures can { live.new.ending ≡ false → CanGoOn service.now.plan live.new (O.told outside.new) }
{
    let mut buffer = [0u8; MAX_ASKED];
    for _taken in 0..MAX_TURN_LINES {
        let has_come = take_one(outside, audience, service, live, turn, &mut buffer)?;
        if !has_come || live.ending {
            return Ok(());
        }
    }
    Ok(())
}
