// A served process that has started, to its end: over its devices, or over those that hold frames for a parent.
ghost use Rattle.std.specs.Prelude.{◌≡◌, None};
ghost use Rattle.fabric_turns.specs.Runs.{AllListen};
ghost use Rattle.group_commit.specs.Groups.{AllKept};
ghost use Rattle.serve_rules.specs.Services.{IsService};

use crate::heard_parent::HeardParent;
use crate::started::{Keeps, Started};
use client_sessions::Sessions;
use door_io::Clients;
use edge_io::Links;
use fabric_edge::MonoClock;
use fabric_status::Status;
use frame_hold::{HoldingLinks, OneLengthLinks};
use group_commit::{Commit, GroupDevices, MAX_QUEUED, Outgoing, QueuedLinks};
use parent_hold::{DevicesBelow, HeldDevices, HoldTerms};
use serve_edge::{PARENT_CLIENT, ParentStream};
use serve_lives::{NoSink, Returning, serve as serve_actor};
use serve_top::{End, FIRST_LINE, TalliedPolicy, status_by};
use serve_turns::{Audience, Board, Handover, Policy};
use service_file::LineChoice;

/// Whether the log and the parent have every report.
fn has_all_lines(started: Started<'_>) -> bool {
    started.settings.lines == LineChoice::AllLines
}

/// What the process keeps for its clients.
fn sessions_of(started: Started<'_>) -> Result<Sessions, End> {
    let service = started.service;
    let parent = started.parent.map(|_| PARENT_CLIENT);
    let lease = service.config().lease;
    Ok(Sessions::new(service.alloc, lease, has_all_lines(started), parent)?)
}

/// How the process ends, with what is left to say: each record that these devices told as kept is synced.
fn say_rest<O: Handover>(started: Started<'_>, _settled: &O, status: Status) -> End
    requires { AllKept (O.synced _settled.now) (O.told _settled.now).kept }
{
    let mut end = End::As(status);
    started.clients.write_out();
    if let Some(parent) = started.parent {
        parent.write_out();
        if status == Status::Ok && parent.is_silent() {
            end = End::Silent;
        }
    }
    if let End::As(Status::Ok) = end {
        started.events.say(b"end\n");
    }
    started.events.finish();
    end
}

/// How the process ends whose records could not be synced: it was told to end then, unless something else has stopped
/// it.
fn unkept(status: Status) -> Status {
    if status == Status::Ok {
        Status::KeepFault
    } else {
        status
    }
}

/// Settles, and says what is left to say. Where records could not be synced, nothing is said.
fn finish<O: Handover>(started: Started<'_>, outside: &mut O, status: Status) -> End {
    if outside.settle() {
        say_rest(started, outside, status)
    } else {
        End::As(unkept(status))
    }
}

/// Runs the actor, which listens, over these devices to its end.
fn run_over<O: Handover, C: Clients + Drop, P: Policy + Returning + Drop, B: Board>(
    started: Started<'_>,
    audience: Audience<C, P>,
    board: &mut B,
    outside: &mut O,
) -> Result<End, End>
    requires service { IsService started.service.now.plan }
    requires listens { AllListen started.service.now.plan (O.told outside.old).opened }
    requires silent { (o : O) → (O.told o).held ≡ None }
{
    let Audience { clients, policy } = audience;
    let policy = TalliedPolicy::new(started.service.alloc, policy, started.tally);
    let mut audience = Audience { clients, policy };
    let sessions = sessions_of(started)?;
    if let Some(parent) = started.parent {
        started.greeted.set(true);
        parent.say(FIRST_LINE.as_bytes());
        parent.write_out();
    }
    let end = serve_actor(outside, &mut audience, started.service, board, sessions);
    Ok(finish(started, outside, status_by(end)))
}

/// Runs an actor that has no parent over these links, which hold its frames until its records are synced.
fn run_grouped<L: Outgoing, C: Clients + Drop, P: Policy + Returning + Drop, B: Board>(
    started: Started<'_>,
    audience: Audience<C, P>,
    board: &mut B,
    links: &mut L,
    keeps: &mut Keeps<'_>,
) -> Result<End, End>
    requires service { IsService started.service.now.plan }
    requires listens { AllListen started.service.now.plan (L.opened links.old) }
{
    let mut sink = NoSink {};
    let mut clock = MonoClock::new(started.rt);
    let mut devices = GroupDevices {
        sink: &mut sink,
        links,
        keeps,
        clock: &mut clock,
        commit: Commit::new(),
    };
    run_over(started, audience, board, &mut devices)
}

/// Links over these, at which the actor listens: they can hold its frames back.
#[tactic(auto, using(crate::proofs::Listening::own_listens))]
fn queued<'n, N: Links>(started: Started<'_>, links: &'n mut N) -> QueuedLinks<'n, N>
    requires service { IsService started.service.now.plan }
    requires listens { AllListen started.service.now.plan (N.opened links.old) }
    ensures { result.below.inner.now ≡ links.old }
{
    let service = started.service;
    QueuedLinks::new(service.alloc, links, service.actor(), MAX_QUEUED)
}

/// Runs an actor that has no parent.
pub fn run_free<N: Links, C: Clients + Drop, P: Policy + Returning + Drop, B: Board>(
    started: Started<'_>,
    audience: Audience<C, P>,
    board: &mut B,
    links: &mut N,
    keeps: &mut Keeps<'_>,
) -> Result<End, End>
    requires service { IsService started.service.now.plan }
    requires listens { AllListen started.service.now.plan (N.opened links.old) }
{
    let mut waiting = queued(started, links);
    run_grouped(started, audience, board, &mut waiting, keeps)
}

/// Runs a node for its parent over these links: what the node has given up is owed to them, and they hold its frames.
fn run_holding<N: Outgoing, C: Clients + Drop, P: Policy + Returning + Drop, B: Board>(
    started: Started<'_>,
    parent: &ParentStream<'_>,
    audience: Audience<C, P>,
    board: &mut B,
    links: &mut HoldingLinks<'_, N>,
    keeps: &mut Keeps<'_>,
) -> Result<End, End>
    requires service { IsService started.service.now.plan }
    requires listens { AllListen started.service.now.plan (N.opened links.old.inner.now) }
{
    let mut sink = NoSink {};
    let mut clock = MonoClock::new(started.rt);
    let devices = DevicesBelow {
        sink: &mut sink,
        links,
        keeps,
        clock: &mut clock,
    };
    let terms = HoldTerms {
        all_lines: has_all_lines(started),
        hold: parent.hold(),
    };
    let heard = HeardParent::new(parent, started.tally);
    let mut held = HeldDevices::new(started.service.alloc, devices, heard, terms);
    run_over(started, audience, board, &mut held)
}

/// Runs a node for its parent over links of one length, which hold its frames until its records are synced. A frame by
/// which another node could take over what the node has given up waits until the parent has let go.
fn run_held<N: Links, C: Clients + Drop, P: Policy + Returning + Drop, B: Board>(
    started: Started<'_>,
    parent: &ParentStream<'_>,
    audience: Audience<C, P>,
    board: &mut B,
    links: &mut N,
    keeps: &mut Keeps<'_>,
) -> Result<End, End>
    requires service { IsService started.service.now.plan }
    requires listens { AllListen started.service.now.plan (N.opened links.old) }
{
    let mut waiting = queued(started, links);
    let mut holding = HoldingLinks::new(started.service.alloc, &mut waiting);
    run_holding(started, parent, audience, board, &mut holding, keeps)
}

/// Runs a node for its parent. Its links have one length.
pub fn run_for_parent<N: Links, C: Clients + Drop, P: Policy + Returning + Drop, B: Board>(
    started: Started<'_>,
    parent: &ParentStream<'_>,
    audience: Audience<C, P>,
    board: &mut B,
    links: &mut N,
    keeps: &mut Keeps<'_>,
) -> Result<End, End>
    requires service { IsService started.service.now.plan }
    requires listens { AllListen started.service.now.plan (N.opened links.old) }
{
    let mut one_length = OneLengthLinks::new(links);
    run_held(started, parent, audience, board, &mut one_length, keeps)
}
