// What a process has from its start to its end.
ghost use Rattle.serve_rules.specs.Services.{IsService};

use crate::actor_start::NotedActor;
use crate::events::Events;
use crate::recalling::recall_by;
use edge_io::EdgeRefusal;
use fabric_status::Status;
use keep_log::Kept;
use serve_edge::{DoorClients, GroupFolder, LogOutput, ParentStream, PollBoard, StartFault};
use serve_top::{
    Begins, BoardFacts, End, NotedKeeper, Tally, is_nothing, judge_beginning, status_of,
};
use serve_turns::Service;
use service_file::{ActorFile, ServiceSettings};
use std::cell::Cell;

/// What the parts of a process share.
#[derive(Clone, Copy)]
pub struct Started<'a> {
    pub rt: &'a HostRuntime,
    pub service: &'a Service,
    pub settings: &'a ServiceSettings,
    pub facts: &'a BoardFacts,
    pub tally: &'a Tally,
    pub board: &'a PollBoard,
    pub output: &'a LogOutput<'a>,
    pub events: &'a Events<'a>,
    /// The clients of the door.
    pub clients: &'a DoorClients<'a>,
    /// The stream of the parent, if the process has one.
    pub parent: Option<&'a ParentStream<'a>>,
    /// Whether the parent was told its first line.
    pub greeted: &'a Cell<bool>,
    /// Where the endpoint is bound, if that is not where others reach the actor.
    pub listen: Option<&'a str>,
}

/// The records of the actor.
pub type Keeps<'a> = NotedKeeper<'a, GroupFolder<'a, HostRuntime>, NotedActor<'a>>;

/// What is kept of the actor.
fn recall_kept(started: Started<'_>, keeps: &mut Keeps<'_>) -> Result<Kept, End>
    requires { IsService started.service.now.plan }
{
    match recall_by(started.rt, started.board, keeps, started.service.actor()) {
        Ok(kept) => Ok(kept),
        Err(cause) => Err(End::As(status_of(cause))),
    }
}

/// A line of the file `actor` is kept for good, or the start ends.
fn need_noted(noted: Result<(), EdgeRefusal>) -> Result<(), End> {
    match noted {
        Ok(()) => Ok(()),
        Err(EdgeRefusal::OutOfMemory) => Err(End::As(Status::OutOfMemory)),
        Err(EdgeRefusal::Failed) => Err(End::Start(StartFault::FolderKeep)),
    }
}

/// Reads the records, and judges by them how the next instance begins. Where there are some, it is noted for good that
/// the actor has begun: a process may have ended between a record and that note. Behind that it is noted which instance
/// begins the ring anew, before anything is recorded of it.
pub fn read_records(
    started: Started<'_>,
    keeps: &mut Keeps<'_>,
    file: &ActorFile,
) -> Result<Begins, End>
    requires { IsService started.service.now.plan }
{
    let kept = recall_kept(started, keeps)?;
    let begins = judge_beginning(file, &kept, started.settings.again)?;
    if !is_nothing(&kept) {
        need_noted(keeps.note_begun())?;
    }
    if let Begins::NoteAnew(again) = begins {
        need_noted(keeps.note_again(again))?;
    }
    Ok(begins)
}
