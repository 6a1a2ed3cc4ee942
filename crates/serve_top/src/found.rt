// What a folder of a ring is found to be.
ghost use Rattle.std.specs.Prelude.{◌≡◌, Some, not};
ghost use Rattle.std.specs.List.{list_all};
ghost use Rattle.serve_top.specs.Founds.{ReadsActor, found_at, found_by, found_whole, is_emptied, is_whole};

use crate::beginning::last_of;
use crate::end::{End, short};
use again_choice::{Folder, Found};
use keep_log::Kept;
use serve_edge::LookFault;
use service_file::{ActorFile, ActorFileError, Again, Beginning, begins_by, read_actor_file};
use std::alloc::Global;
use turn_rules::StopCause;

/// What a folder is found to be that is not read; memory may be short.
pub fn found_at(fault: LookFault) -> Result<Found, End>
    ensures { result ≡ found_at fault }
{
    match fault {
        LookFault::Running => Ok(Found::Running),
        LookFault::Unreadable => Ok(Found::Unreadable),
        LookFault::OutOfMemory => Err(short()),
    }
}

/// What the lines of a file `actor` say; None where they are not of its grammar.
pub fn read_actor(alloc: Global, lines: &[u8]) -> Result<Option<ActorFile>, End>
    ensures { ReadsActor lines.now result }
{
    match read_actor_file(alloc, lines) {
        Ok(file) => Ok(Some(file)),
        Err(ActorFileError::Bad) => Ok(None),
        Err(ActorFileError::OutOfMemory) => Err(short()),
    }
}

/// Whether a start by this `again` finds that records are lost.
fn is_emptied(file: &ActorFile, kept: &Kept, again: Option<Again>) -> bool
    ensures { result ≡ is_emptied file.now kept.now again }
{
    match begins_by(file, last_of(kept), again) {
        Beginning::Emptied => true,
        _ => false,
    }
}

/// Whether no start by one of these lines finds that records are lost.
fn are_whole(file: &ActorFile, kept: &Kept, lines: &[Again]) -> bool
    ensures { result ≡ list_all (λ a. not (is_emptied file.now kept.now (Some a))) lines.now }
{
    lines
        .iter()
        .all(|again| !is_emptied(file, kept, Some(*again)))
}

/// Whether each record is kept of which the file knows.
fn is_whole(file: &ActorFile, kept: &Kept) -> bool
    ensures { result ≡ is_whole file.now kept.now }
{
    !is_emptied(file, kept, None) && are_whole(file, kept, file.again.as_slice())
}

fn found_whole(file: ActorFile, kept: Kept) -> Found
    ensures { result ≡ found_whole file kept }
{
    if is_whole(&file, &kept) {
        Found::Read(Folder { file, kept })
    } else {
        Found::Unreadable
    }
}

/// What a folder is found to be, by its file `actor` and by what is recalled of its actor. One whose records are not
/// whole is not read.
pub fn found_by(file: ActorFile, recalled: Result<Kept, StopCause>) -> Result<Found, End>
    ensures { result ≡ found_by file recalled }
{
    match recalled {
        Ok(kept) => Ok(found_whole(file, kept)),
        Err(StopCause::OutOfMemory) => Err(short()),
        Err(_) => Ok(Found::Unreadable),
    }
}
