// What is answered at once: a state, entries of a log, a watch, and the orders to leave and to end.
ghost use Rattle.std.specs.Prelude.{◌≡◌, ◌≤◌, ◌∷◌, ◌++◌, [], IfSome, OnOk, false, length};
ghost use Rattle.client_sessions.specs.Answers.{answered_by};
ghost use Rattle.client_sessions.specs.Utterances.{Uttered};
ghost use Rattle.edge_io.specs.Told.{Told};
ghost use Rattle.fabric_turns.specs.Runs.{AreMembers};
ghost use Rattle.ring_points.specs.Whos.{arbiter_actor};
ghost use Rattle.serve_rules.specs.Lines.{AtOnce, place_line, request_line, watch_line};
ghost use Rattle.serve_rules.specs.Served.{Served, log_text, member_of, state_text, text_at_once, with_request};
ghost use Rattle.serve_rules.specs.Services.{IsService};
ghost use Rattle.serve_turns.specs.Asking.{is_command, is_watch, watch_request};
ghost use Rattle.serve_turns.specs.Live.{Keeps, around};
ghost use Rattle.serve_turns.specs.Moves.{TakesAs, went_well};
ghost use Rattle.serve_turns.specs.Telling.{Shows};
ghost use Rattle.turn_rules.specs.Order.{TurnPosition};
ghost use Rattle.turn_rules.specs.Plans.{Plan as PlanOf};

use crate::audience::Audience;
use crate::lines::refuse_line;
use crate::live::Live;
use crate::policy::Policy;
use crate::service::Service;
use door_io::Clients;
use door_lines::{Fault, Request};
use fabric_terms::OutOfMemory;
use open_answers::Asker;
use ring_points::{ARBITRATORS, MAX_READING};
use state_lines::{push_arbiter_state, push_hold, push_lead, push_log, push_node_state};
use turn_members::Member;

/// The number of an arbitrator, as its state has it. Numbers are 1 to 9, but a plan may have any: one of more than a byte
/// has no such line.
fn number_of(actor: u16) -> Option<u8>
    requires { arbiter_actor 0 ≤ actor }
    ensures { IfSome result (λ number. actor ≡ arbiter_actor number) }
{
    let number = actor - ARBITRATORS;
    if number <= u16::from(u8::MAX) {
        Some(number as u8)
    } else {
        None
    }
}

/// Appends the lines of the actor's state. An arbitrator whose number has no line is refused as where memory is short.
fn push_state(
    text: &mut Vec<u8>,
    service: &Service,
    live: &Live,
    tag: u32,
) -> Result<(), OutOfMemory>
    requires runs { length live.now.run.members ≡ 1 }
    requires members { AreMembers service.now.plan live.now.run.members }
    ensures { (v : Served) → Shows v live.now → OnOk result (text.new.items
        ≡ text.old.items ++ state_text service.now.plan.config v tag (member_of v.process)) }
{
    let facts = live.session_facts();
    match live.run.member_at(0) {
        Member::Node(core) => {
            let now = live.run.last().unwrap_or(0);
            push_node_state(text, Some(tag), core, now, &live.changes, facts)
        }
        Member::Arbiter(actor, arbiter) => match number_of(*actor) {
            Some(number) => push_arbiter_state(text, Some(tag), number, arbiter, facts),
            None => Err(OutOfMemory),
        },
    }
}

/// Appends the lines of a request that asks for some.
fn push_lines(
    text: &mut Vec<u8>,
    service: &Service,
    live: &Live,
    tag: u32,
    request: &Request,
) -> Result<(), OutOfMemory>
    requires service { IsService service.now.plan }
    requires runs { length live.now.run.members ≡ 1 }
    requires members { AreMembers service.now.plan live.now.run.members }
    requires last { IfSome live.now.run.last (λ reading. reading ≤ MAX_READING) }
    ensures { (v : Served) → Shows v live.now → OnOk result (text.new.items
        ≡ text.old.items ++ text_at_once service.now.plan.config v tag request.now) }
{
    match request {
        Request::State => push_state(text, service, live, tag),
        Request::Log {
            partition,
            first,
            count,
        } => match live.run.member_at(0) {
            Member::Node(core) => push_log(text, Some(tag), core, *partition, *first, *count),
            Member::Arbiter(_, _) => Ok(()),
        },
        Request::Hold(point) => match live.run.member_at(0) {
            Member::Node(core) => {
                let config = service.config();
                push_hold(text, Some(tag), config, core, live.present(), *point)
            }
            Member::Arbiter(_, _) => Ok(()),
        },
        Request::Lead(partition) => match live.run.member_at(0) {
            Member::Node(core) => push_lead(text, Some(tag), core, *partition),
            Member::Arbiter(_, _) => Ok(()),
        },
        _ => Ok(()),
    }
}

/// Says the lines of a request, and that it is done. The client is dropped where the lines cannot be made.
fn say_lines<C: Clients, P: Policy>(
    audience: &mut Audience<C, P>,
    service: &Service,
    live: &mut Live,
    asker: Asker,
    request: &Request,
)
    requires service { IsService service.now.plan }
    requires runs { length live.old.run.members ≡ 1 }
    requires members { AreMembers service.now.plan live.old.run.members }
    requires last { IfSome live.old.run.last (λ reading. reading ≤ MAX_READING) }
    ensures said { (v : Served) → Shows v live.old →
        Uttered (answered_by asker (text_at_once service.now.plan.config v asker.tag request.now) ∷ [])
        (C.told audience.old.clients) (C.told audience.new.clients) }
    ensures same { live.new ≡ live.old }
    ensures advised { P.advised audience.new.policy ≡ P.advised audience.old.policy }
{
    let mut text = Vec::new(service.alloc);
    match push_lines(&mut text, service, live, asker.tag, request) {
        Ok(()) => live
            .sessions
            .finish(&mut audience.clients, asker, text.as_slice()),
        Err(_) => audience.clients.close(asker.client),
    }
}

/// Does what a request orders of the process itself, other than to watch.
fn obey<C: Clients, P: Policy>(
    audience: &mut Audience<C, P>,
    live: &mut Live,
    client: u32,
    request: &Request,
)
    ensures keeps { is_watch request.now ≡ false → (plan : PlanOf) (v : Served) → Keeps v live.old →
        Keeps (with_request plan v client request.now) live.new }
    ensures run { live.new.run ≡ live.old.run }
    ensures clients { C.told audience.new.clients ≡ C.told audience.old.clients }
    ensures advised { P.advised audience.new.policy ≡ P.advised audience.old.policy }
{
    match request {
        Request::Leave => {
            live.leaving = true;
            audience.policy.leave(live.run.last().unwrap_or(0));
        }
        Request::End => live.ending = true,
        _ => {}
    }
}

/// Answers a line at once.
fn answer_at_once<C: Clients, P: Policy>(
    audience: &mut Audience<C, P>,
    service: &Service,
    live: &mut Live,
    asker: Asker,
    request: &Request,
)
    requires service { IsService service.now.plan }
    requires going { live.old.ending ≡ false }
    requires runs { length live.old.run.members ≡ 1 }
    requires members { AreMembers service.now.plan live.old.run.members }
    requires last { IfSome live.old.run.last (λ reading. reading ≤ MAX_READING) }
    ensures done { is_watch request.now ≡ false → (told : Told) (p : TurnPosition) →
        TakesAs service.now.plan asker.client (AtOnce asker.tag request.now)
        (around told (C.told audience.old.clients) (P.advised audience.old.policy)) live.old p
        (around told (C.told audience.new.clients) (P.advised audience.new.policy)) live.new p went_well }
    ensures run { live.new.run ≡ live.old.run }
{
    say_lines(audience, service, live, asker, request);
    obey(audience, live, asker.client, request);
}

/// A client begins to watch, or is refused where as many others watch as may.
fn find_place<C: Clients, P: Policy>(
    audience: &mut Audience<C, P>,
    live: &mut Live,
    asker: Asker,
    all: bool,
)
    requires going { live.old.ending ≡ false }
    ensures done { (plan : PlanOf) (told : Told) (p : TurnPosition) →
        TakesAs plan asker.client
        (place_line live.old.sessions asker.client asker.tag (watch_request all))
        (around told (C.told audience.old.clients) (P.advised audience.old.policy)) live.old p
        (around told (C.told audience.new.clients) (P.advised audience.new.policy)) live.new p went_well }
    ensures run { live.new.run ≡ live.old.run }
    ensures ending { live.new.ending ≡ live.old.ending }
{
    if live.sessions.watch(asker.client, all) {
        live.sessions.finish(&mut audience.clients, asker, b"");
    } else {
        let busy = Fault::Busy;
        live.sessions
            .refuse(&mut audience.clients, asker.client, Some(asker.tag), busy);
    }
}

/// A client asks to watch. A parent is refused: it has every report of the log without asking.
fn take_watch<C: Clients, P: Policy>(
    audience: &mut Audience<C, P>,
    service: &Service,
    live: &mut Live,
    asker: Asker,
    all: bool,
)
    requires service { IsService service.now.plan }
    requires going { live.old.ending ≡ false }
    ensures done { (told : Told) (p : TurnPosition) →
        TakesAs service.now.plan asker.client
        (watch_line service.now.plan live.old.sessions asker.client asker.tag (watch_request all))
        (around told (C.told audience.old.clients) (P.advised audience.old.policy)) live.old p
        (around told (C.told audience.new.clients) (P.advised audience.new.policy)) live.new p went_well }
    ensures run { live.new.run ≡ live.old.run }
    ensures ending { live.new.ending ≡ live.old.ending }
{
    if service.is_parent(live, asker.client) {
        refuse_line(audience, live, asker.client, Some(asker.tag), Fault::Line);
    } else {
        find_place(audience, live, asker, all);
    }
}

/// Answers a request that is no command.
pub(crate) fn answer_request<C: Clients, P: Policy>(
    audience: &mut Audience<C, P>,
    service: &Service,
    live: &mut Live,
    asker: Asker,
    request: &Request,
)
    requires service { IsService service.now.plan }
    requires going { live.old.ending ≡ false }
    requires runs { length live.old.run.members ≡ 1 }
    requires members { AreMembers service.now.plan live.old.run.members }
    requires last { IfSome live.old.run.last (λ reading. reading ≤ MAX_READING) }
    ensures done { is_command request.now ≡ false → (told : Told) (p : TurnPosition) →
        TakesAs service.now.plan asker.client
        (request_line service.now.plan live.old.sessions asker.client asker.tag request.now)
        (around told (C.told audience.old.clients) (P.advised audience.old.policy)) live.old p
        (around told (C.told audience.new.clients) (P.advised audience.new.policy)) live.new p went_well }
    ensures run { live.new.run ≡ live.old.run }
{
    match request {
        Request::Watch => take_watch(audience, service, live, asker, false),
        Request::WatchAll => take_watch(audience, service, live, asker, true),
        _ => answer_at_once(audience, service, live, asker, request),
    }
}
