// A life of the process: its start, and then turn after turn.
ghost use Rattle.std.specs.Prelude.{◌≡◌, ◌≤◌, ◌+◌, ◌-◌, List, false, length, true};
ghost use Rattle.edge_io.specs.Told.{Told};
ghost use Rattle.fabric_terms.specs.declared.record.Record.{Record};
ghost use Rattle.fabric_turns.specs.Runs.{AreMembers, IsKeptAt};
ghost use Rattle.group_commit.specs.Groups.{AllKept};
ghost use Rattle.serve_rules.specs.Served.{Served as ServedProcess, next_firing};
ghost use Rattle.serve_rules.specs.Services.{IsService};
ghost use Rattle.serve_turns.specs.Lives.{CanLive, ClosesFor, IsLife, most_turns};
ghost use Rattle.serve_turns.specs.Live.{around};
ghost use Rattle.serve_turns.specs.Steps.{CanGoOn};
ghost use Rattle.serve_turns.specs.Telling.{Shows};
ghost use Rattle.serve_turns.specs.Turns.{CanStart, TurnsFrom, TurnsTo};
ghost use Rattle.turn_rules.specs.Order.{arrive};
ghost use Rattle.turn_rules.specs.Plans.{is_node_at};
ghost use Rattle.turn_rules.specs.Steps.{present};

use crate::audience::Audience;
use crate::board::{Board, Shown};
use crate::firing::next_firing;
use crate::handover::Handover;
use crate::live::Live;
use crate::policy::Policy;
use crate::service::Service;
use crate::start::start;
use crate::turns::take_turn;
use door_io::Clients;
use edge_io::DATAGRAM_BYTES;
use keep_log::Kept;
use turn_rules::StopCause;

/// How a life ends.
#[derive(Clone, Copy, Debug, PartialEq, Eq)]
pub enum LifeEnd {
    /// A client told the process to end, or to leave.
    Told,
    /// All turns are taken that can be counted.
    Spent,
    /// The life has stopped.
    Stopped(StopCause),
}

/// The longest rest of an arbitrator, in ticks. Nothing is ever due there.
const MAX_IDLE_REST: u64 = 500;

/// The first reading at which something of a node is due: its firing, the end of an answer's time, or the policy.
fn next_due<C: Clients, P: Policy>(audience: &Audience<C, P>, service: &Service, live: &Live) -> u64
    requires service { IsService service.now.plan }
    requires runs { length live.now.run.members ≡ 1 }
    requires members { AreMembers service.now.plan live.now.run.members }
    ensures { (v : ServedProcess) → Shows v live.now → result ≤ next_firing service.now.plan v }
{
    let firing = next_firing(service, live);
    let policy = audience.policy.due();
    match live.sessions.due() {
        None => firing.min(policy),
        Some(answer) => firing.min(policy).min(answer),
    }
}

/// How long the process may rest, in ticks.
fn longest_rest<C: Clients, P: Policy>(
    audience: &Audience<C, P>,
    service: &Service,
    live: &Live,
) -> u64
    requires service { IsService service.now.plan }
    requires runs { length live.now.run.members ≡ 1 }
    requires members { AreMembers service.now.plan live.now.run.members }
    ensures node { is_node_at service.now.plan 0 ≡ true → (v : ServedProcess) → Shows v live.now →
        result ≤ next_firing service.now.plan v - present v.process.last }
    ensures arbiter { is_node_at service.now.plan 0 ≡ false → result ≡ MAX_IDLE_REST }
{
    if service.is_node() {
        next_due(audience, service, live).saturating_sub(live.present())
    } else {
        MAX_IDLE_REST
    }
}

/// The board shows the process, and passes the time until something comes. All that these devices told is settled.
fn rest_at<O: Handover, B: Board>(outside: &O, board: &mut B, live: &Live, most: u64)
    requires runs { length live.now.run.members ≡ 1 }
    requires settled { AllKept (O.synced outside.now) (O.told outside.now).kept }
{
    let actor = live.run.member_at(0);
    let changes = &live.changes;
    let shown = Shown {
        actor,
        sessions: live.session_facts(),
        changes,
        now: live.present(),
    };
    board.rest(outside, most, Some(&shown));
}

/// All turns, until the process is told to end: it says so. Before each of them the process settles and rests; where a
/// sync has failed, it does not rest.
fn take_turns<O: Handover, C: Clients, P: Policy, B: Board>(
    outside: &mut O,
    audience: &mut Audience<C, P>,
    service: &Service,
    board: &mut B,
    live: &mut Live,
) -> Result<bool, StopCause>
    requires can { CanGoOn service.now.plan live.old (O.told outside.old) }
    ensures { TurnsTo service.now.plan
        (around (O.told outside.old) (C.told audience.old.clients) (P.advised audience.old.policy)) live.old
        (arrive service.now.plan 1 0)
        (around (O.told outside.new) (C.told audience.new.clients) (P.advised audience.new.policy)) live.new
        (arrive service.now.plan (most_turns + 1) 0) result }
{
    let mut buffer = [0u8; DATAGRAM_BYTES];
    for number in 0..u64::MAX {
        let most = longest_rest(audience, service, live);
        if outside.settle() {
            rest_at(outside, board, live, most);
        }
        if take_turn(outside, audience, service, live, number + 1, &mut buffer)? {
            return Ok(true);
        }
    }
    Ok(false)
}

/// The start of the actor and all turns.
fn start_and_turn<O: Handover, C: Clients, P: Policy, B: Board>(
    outside: &mut O,
    audience: &mut Audience<C, P>,
    service: &Service,
    board: &mut B,
    live: &mut Live,
    kept: Kept,
) -> Result<bool, StopCause>
    requires can { CanStart service.now.plan live.old (O.told outside.old) }
    requires kept { (records : List Record) × IsKeptAt service.now.plan 0 records kept }
    ensures { TurnsFrom kept service.now.plan
        (around (O.told outside.old) (C.told audience.old.clients) (P.advised audience.old.policy)) live.old
        (arrive service.now.plan 0 0)
        (around (O.told outside.new) (C.told audience.new.clients) (P.advised audience.new.policy)) live.new
        (arrive service.now.plan (most_turns + 1) 0) result }
{
    start(outside, audience, service, live, kept)?;
    take_turns(outside, audience, service, board, live)
}

/// Where the actor has left, each open answer ends with `unknown`.
fn close_answers<C: Clients, P: Policy>(
    audience: &mut Audience<C, P>,
    live: &mut Live,
    cause: StopCause,
)
    ensures { (told : Told) → ClosesFor cause
        (around told (C.told audience.old.clients) (P.advised audience.old.policy)) live.old
        (around told (C.told audience.new.clients) (P.advised audience.new.policy)) live.new }
{
    if let StopCause::Left(_) = cause {
        live.sessions.close(&mut audience.clients);
    }
}

/// A life of the process, from what is kept of its actor to its end. Where the actor has left, each open answer ends
/// with `unknown`, and the sessions go on in the next life.
pub fn live_on<O: Handover, C: Clients, P: Policy, B: Board>(
    outside: &mut O,
    audience: &mut Audience<C, P>,
    service: &Service,
    board: &mut B,
    live: &mut Live,
    kept: Kept,
) -> LifeEnd
    requires can { CanLive service.now.plan live.old (O.told outside.old) }
    requires kept { (records : List Record) × IsKeptAt service.now.plan 0 records kept }
    ensures { (records : List Record) → IsKeptAt service.now.plan 0 records kept →
        IsLife service.now.plan records
        (around (O.told outside.old) (C.told audience.old.clients) (P.advised audience.old.policy)) live.old
        result
        (around (O.told outside.new) (C.told audience.new.clients) (P.advised audience.new.policy)) live.new }
{
    match start_and_turn(outside, audience, service, board, live, kept) {
        Ok(true) => LifeEnd::Told,
        Ok(false) => LifeEnd::Spent,
        Err(cause) => {
            close_answers(audience, live, cause);
            LifeEnd::Stopped(cause)
        }
    }
}
