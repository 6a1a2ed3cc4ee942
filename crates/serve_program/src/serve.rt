// A served process, from its words to its end.
ghost use Rattle.fabric_turns.specs.Runs.{AllListen};
ghost use Rattle.serve_rules.specs.Services.{IsService};
ghost use Rattle.service_file.specs.Sound.{IsSoundService};

use crate::actor_start::{NotedActor, take_actor};
use crate::events::Events;
use crate::opening::{open_door, open_endpoint, open_page};
use crate::running::{run_for_parent, run_free};
use crate::serving::Serving;
use crate::start::read_given;
use crate::started::{Keeps, Started, read_records};
use edge_io::Links;
use fabric_edge::MonoClock;
use frame_seal::{SealKey, SealedLinks};
use ring_points::Who;
use serve_edge::{
    DoorClients, GroupFolder, LogOutput, PageSockets, ParentStream, PollBoard, PollRest,
    STANDARD_ERROR, STANDARD_INPUT, STANDARD_OUTPUT, ServedLinks, StartFault, StdoutLog,
    WritingRest, enter_folder,
};
use serve_lives::{NoPolicy, NodePolicy};
use serve_top::{
    Begins, BoardDevices, BoardFacts, End, NotedKeeper, Setup, StatusBoard, TalliedLinks, Tally,
    plan_of, whole_of,
};
use serve_turns::{Audience, Service};
use service_file::{ActorFile, ServiceSettings};
use std::alloc::{AllocError, Global};
use std::net::SocketAddr;

/// The board of the process.
fn board_of<'a>(
    started: Started<'a>,
    page: Option<PageSockets<'a>>,
) -> StatusBoard<
    'a,
    PageSockets<'a>,
    WritingRest<'a, PollRest<'a, HostRuntime>>,
    MonoClock<'a, HostRuntime>,
    StdoutLog<'a, HostRuntime>,
> {
    let rest = PollRest::new(started.rt, started.board, started.output);
    let devices = BoardDevices {
        page,
        rest: WritingRest::new(rest, started.clients, started.parent),
        clock: MonoClock::new(started.rt),
        log: StdoutLog::new(started.rt, started.output),
    };
    StatusBoard::new(started.rt.alloc(), started.facts, started.tally, devices)
}

/// Opens the endpoint, the door and the page, and runs the actor to its end.
fn open_and_run<N: Links + Drop>(
    started: Started<'_>,
    page: Option<SocketAddr>,
    links: N,
    keeps: &mut Keeps<'_>,
    passed: bool,
) -> Result<End, End>
    requires service { IsService started.service.now.plan }
    requires settings { IsSoundService started.service.now.plan.config started.settings.now }
{
    let service = started.service;
    let mut links = TalliedLinks::new(links, started.tally, started.facts.sealed);
    open_endpoint(service, &mut links)?;
    let clients = open_door(started)?;
    let mut board = board_of(started, open_page(started, page)?);
    let at = started.listen.unwrap_or(service.plan.address_at(0));
    started.events.opened(at, started.facts.sealed, passed);
    if !service.is_node() {
        started.events.begin(Who {
            actor: service.actor(),
            instance: 0,
        });
        let policy = NoPolicy {};
        let audience = Audience { clients, policy };
        return run_free(started, audience, &mut board, &mut links, keeps);
    }
    let config = service.config();
    let policy = NodePolicy::new(service.alloc, config, started.settings, service.actor())?;
    let audience = Audience { clients, policy };
    match started.parent {
        None => run_free(started, audience, &mut board, &mut links, keeps),
        Some(parent) => run_for_parent(started, parent, audience, &mut board, &mut links, keeps),
    }
}

/// Runs the actor over links that are sealed by the key, if there is one.
fn run_sealed(
    started: Started<'_>,
    page: Option<SocketAddr>,
    listen: Option<SocketAddr>,
    key: Option<SealKey>,
    keeps: &mut Keeps<'_>,
    passed: bool,
) -> Result<End, End>
    requires service { IsService started.service.now.plan }
    requires settings { IsSoundService started.service.now.plan.config started.settings.now }
{
    let alloc = started.rt.alloc();
    let mut links = ServedLinks::new(started.rt, alloc, started.board, listen);
    match key {
        None => open_and_run(started, page, links, keeps, passed),
        Some(key) => {
            let sealed = SealedLinks::new(alloc, key, &mut links);
            open_and_run(started, page, sealed, keeps, passed)
        }
    }
}

/// The numbers of the declared partitions.
fn declared_in(alloc: Global, settings: &ServiceSettings) -> Result<Vec<u16>, AllocError> {
    let mut declared = Vec::new(alloc);
    for entry in settings.partitions.as_slice() {
        declared.push(entry.partition)?;
    }
    Ok(declared)
}

/// What the page and the log say that does not change.
fn facts_of(alloc: Global, serving: Serving<'_>, setup: &Setup) -> Result<BoardFacts, End> {
    Ok(BoardFacts {
        arbiter: serving.arbiter,
        checksum: setup.checksum,
        sealed: serving.options.key.is_some(),
        declared: declared_in(alloc, &setup.settings)?,
        lease: setup.config.lease,
        grain: setup.config.bound.grain,
    })
}

/// Where the log of the process goes: standard output has the lines of a parent, if there is one.
fn log_of(hold: Option<u64>) -> i32 {
    match hold {
        None => STANDARD_OUTPUT,
        Some(_) => STANDARD_ERROR,
    }
}

/// The stream of the parent that may owe a `done` for so many ticks, if there is one.
fn open_parent<'a>(
    alloc: Global,
    board: &'a PollBoard,
    hold: Option<u64>,
) -> Result<Option<ParentStream<'a>>, End> {
    let Some(hold) = hold else {
        return Ok(None);
    };
    let streams = (STANDARD_INPUT, STANDARD_OUTPUT);
    let stream = ParentStream::new(alloc, board, streams, hold)?;
    Ok(Some(stream))
}

/// The addresses of the options, and the key or why it is refused.
#[derive(Drop)]
struct Opened {
    page: Option<SocketAddr>,
    listen: Option<SocketAddr>,
    key: Result<Option<SealKey>, StartFault>,
}

/// Reads the records, and then runs the actor over them.
fn keep_and_run<'a>(
    started: Started<'a>,
    actor: NotedActor<'a>,
    file: &ActorFile,
    opened: Opened,
) -> Result<End, End>
    requires service { IsService started.service.now.plan }
    requires settings { IsSoundService started.service.now.plan.config started.settings.now }
{
    let files = GroupFolder::new(started.rt, started.rt.alloc(), started.service.actor());
    let mut keeps = NotedKeeper::new(files, actor, started.tally);
    let begins = read_records(started, &mut keeps, file)?;
    let passed = begins == Begins::Passed;
    let key = opened.key?;
    run_sealed(started, opened.page, opened.listen, key, &mut keeps, passed)
}

/// The steps of a start, and then the run.
fn run<'a>(rt: &'a HostRuntime, serving: Serving<'a>) -> Result<End, End> {
    let alloc = rt.alloc();
    let given = read_given(rt, serving)?;
    let facts = facts_of(alloc, serving, &given.setup)?;
    let (checksum, settings) = (given.setup.checksum, given.setup.settings);
    let config = given.setup.config;
    let whole = whole_of(&config, settings.again);
    let plan = plan_of(alloc, config, whole, serving.actor)?;
    let service = Service { alloc, plan };
    let folder = serving.options.folder.unwrap_or(".");
    enter_folder(rt, folder)?;
    let tally = Tally::new(alloc);
    let board = PollBoard::new(alloc)?;
    let clients = DoorClients::new(alloc, &board)?;
    let stream = open_parent(alloc, &board, given.hold)?;
    let output = LogOutput::new(alloc, &board, log_of(given.hold))?;
    let events = Events::new(rt, &output);
    let (actor, file) = take_actor(rt, &events, serving.actor, &checksum)?;
    let started = Started {
        rt,
        service: &service,
        settings: &settings,
        facts: &facts,
        tally: &tally,
        board: &board,
        output: &output,
        events: &events,
        clients: &clients,
        parent: stream.as_ref(),
        greeted: serving.greeted,
        listen: serving.options.listen,
    };
    let opened = Opened {
        page: given.page,
        listen: given.listen,
        key: given.key,
    };
    keep_and_run(started, actor, &file, opened)
}

/// Runs an actor until it is told to end, or something stops it.
pub fn run_actor<'a>(rt: &'a HostRuntime, serving: Serving<'a>) -> End {
    match run(rt, serving) {
        Ok(end) => end,
        Err(end) => end,
    }
}
