ghost use Rattle.std.specs.Prelude.{◌≡◌, ◌++◌, IfOk, OnOk};
ghost use Rattle.status_page.specs.Answers.{answer_for, answer_text, arbiter_page, health_of, metrics_page};
ghost use Rattle.status_page.specs.Answers.{node_page, plain_body, plain_text, status_text};

use crate::counts::Counts;
use crate::metrics::push_metrics;
use crate::state::{DoorFacts, NodeFacts, push_arbiter, push_node};
use crate::wanted::Wanted;
use door_lines::push_number_behind;
use fabric_terms::OutOfMemory;
use join_phases::Phase;
use std::alloc::Global;
use text_fields::push_bytes;

/// An answer of a few words.
#[derive(Clone, Copy, Debug, PartialEq, Eq)]
pub enum Plain {
    /// The node routes, or the actor is an arbitrator.
    Routing,
    /// The node does not route.
    NotRouting,
    /// The page has no such path.
    NotFound,
    /// The page knows GET alone.
    NotAllowed,
    /// The bytes are no head of a request, or are past a limit.
    BadRequest,
}

/// How a client is answered.
#[derive(Clone, Copy, Debug, PartialEq, Eq)]
pub enum Answer {
    /// Not yet: its head goes on.
    Wait,
    /// With the numbers of the process.
    Metrics,
    /// With the state of the actor.
    State,
    /// With a few words.
    Says(Plain),
}

/// How a client is answered that wants this, where the actor routes or not. An arbitrator counts as routing.
pub fn answer_for(wanted: Wanted, routes: bool) -> Answer
    ensures { result ≡ answer_for wanted routes }
{
    match wanted {
        Wanted::More => Answer::Wait,
        Wanted::Bad => Answer::Says(Plain::BadRequest),
        Wanted::OtherMethod => Answer::Says(Plain::NotAllowed),
        Wanted::OtherPath => Answer::Says(Plain::NotFound),
        Wanted::Metrics => Answer::Metrics,
        Wanted::State => Answer::State,
        Wanted::Health => Answer::Says(health_of(routes)),
    }
}

fn health_of(routes: bool) -> Plain
    ensures { result ≡ health_of routes }
{
    if !routes {
        return Plain::NotRouting;
    }
    Plain::Routing
}

fn status_of(plain: Plain) -> &'static [u8]
    ensures { result.now ≡ status_text plain }
{
    match plain {
        Plain::Routing => b"200 OK",
        Plain::NotRouting => b"503 Service Unavailable",
        Plain::NotFound => b"404 Not Found",
        Plain::NotAllowed => b"405 Method Not Allowed\r\nAllow: GET",
        Plain::BadRequest => b"400 Bad Request",
    }
}

fn body_of(plain: Plain) -> &'static [u8]
    ensures { result.now ≡ plain_body plain }
{
    match plain {
        Plain::Routing => b"ok",
        Plain::NotRouting => b"not routing",
        Plain::NotFound => b"not found",
        Plain::NotAllowed => b"only GET",
        Plain::BadRequest => b"bad request",
    }
}

/// Appends an answer of this status, with a body of this type.
#[tactic(auto, unfolding(crate::specs::Answers::answer_text))]
fn push_answer(
    into: &mut Vec<u8>,
    status: &[u8],
    type_name: &[u8],
    body: &[u8],
) -> Result<(), OutOfMemory>
    ensures { OnOk result (into.new.items
        ≡ into.old.items ++ answer_text status.now type_name.now body.now) }
{
    push_bytes(into, b"HTTP/1.0 ")?;
    push_bytes(into, status)?;
    push_bytes(into, b"\r\nContent-Type: ")?;
    push_bytes(into, type_name)?;
    push_number_behind(into, b"\r\nContent-Length: ", body.len() as u64)?;
    push_bytes(into, b"\r\nConnection: close\r\n\r\n")?;
    push_bytes(into, body)
}

/// An answer of this status, with a body of this type.
fn answer_of(
    alloc: Global,
    status: &[u8],
    type_name: &[u8],
    body: &[u8],
) -> Result<Vec<u8>, OutOfMemory>
    ensures { IfOk result (λ text. text.items ≡ answer_text status.now type_name.now body.now) }
{
    let mut text = Vec::new(alloc);
    push_answer(&mut text, status, type_name, body)?;
    Ok(text)
}

/// The whole answer of a few words.
pub fn plain_answer(alloc: Global, plain: Plain) -> Result<Vec<u8>, OutOfMemory>
    ensures { IfOk result (λ text. text.items ≡ plain_text plain) }
{
    answer_of(alloc, status_of(plain), b"text/plain", body_of(plain))
}

/// The whole answer with the numbers of the process.
pub fn metrics_answer(alloc: Global, counts: &Counts) -> Result<Vec<u8>, OutOfMemory>
    ensures { IfOk result (λ text. text.items ≡ metrics_page counts.now) }
{
    let mut body = Vec::new(alloc);
    push_metrics(&mut body, counts)?;
    answer_of(alloc, b"200 OK", b"text/plain; version=0.0.4", &body)
}

/// The whole answer with the state of a node.
pub fn node_answer(
    alloc: Global,
    phase: &Phase,
    node: &NodeFacts,
    door: &DoorFacts,
) -> Result<Vec<u8>, OutOfMemory>
    ensures { IfOk result (λ text. text.items ≡ node_page phase.now node.now door.now) }
{
    let mut body = Vec::new(alloc);
    push_node(&mut body, phase, node, door)?;
    answer_of(alloc, b"200 OK", b"application/json", &body)
}

/// The whole answer with the state of an arbitrator.
pub fn arbiter_answer(
    alloc: Global,
    arbiter: u8,
    entries: u64,
    door: &DoorFacts,
) -> Result<Vec<u8>, OutOfMemory>
    ensures { IfOk result (λ text. text.items ≡ arbiter_page arbiter entries door.now) }
{
    let mut body = Vec::new(alloc);
    push_arbiter(&mut body, arbiter, entries, door)?;
    answer_of(alloc, b"200 OK", b"application/json", &body)
}
