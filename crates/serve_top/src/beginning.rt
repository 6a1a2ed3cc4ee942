ghost use Rattle.std.specs.Prelude.{◌≡◌};
ghost use Rattle.serve_top.specs.Beginnings.{is_nothing, judged, last_of};
ghost use Rattle.service_file.specs.Beginnings.{begins_by};

use crate::end::{End, FolderFault};
use keep_log::Kept;
use service_file::{ActorFile, Again, Beginning, ServiceField, begins_by};

/// How the next instance of an actor begins.
#[derive(Clone, Copy, Debug, PartialEq, Eq)]
pub enum Begins {
    /// As any other.
    Usual,
    /// As any other, and the log says `again passed`: the instance that line 2 names has begun before.
    Passed,
    /// With the whole ring. The file `actor` has the line that says so.
    Anew,
    /// With the whole ring, once the file `actor` has the line of this instance.
    NoteAnew(Again),
}

/// Whether no record is kept of the actor.
pub fn is_nothing(kept: &Kept) -> bool
    ensures { result ≡ is_nothing kept.now }
{
    kept.boots == 0 && kept.arbiter.as_slice().is_empty()
}

/// The last instance that the records name; None where no record is kept, and 0 for an arbitrator.
pub(crate) fn last_of(kept: &Kept) -> Option<u32>
    ensures { result ≡ last_of kept.now }
{
    if is_nothing(kept) {
        None
    } else {
        Some(kept.boots)
    }
}

fn judged(beginning: Beginning, again: Option<Again>) -> Result<Begins, End>
    ensures { result ≡ judged beginning again }
{
    match (beginning, again) {
        (Beginning::NoteAnew, Some(again)) => Ok(Begins::NoteAnew(again)),
        (Beginning::NoteAnew, None) | (Beginning::Usual, _) => Ok(Begins::Usual),
        (Beginning::Anew, _) => Ok(Begins::Anew),
        (Beginning::Passed, _) => Ok(Begins::Passed),
        (Beginning::Emptied, _) => Err(End::Folder(FolderFault::Emptied)),
        (Beginning::WrongInstance, _) => Err(End::Service(ServiceField::Instance)),
    }
}

/// How the next instance begins, by the file `actor`, the records that are kept, and the `again` of line 2; or why the
/// start is refused.
pub fn judge_beginning(file: &ActorFile, kept: &Kept, again: Option<Again>) -> Result<Begins, End>
    ensures { result ≡ judged (begins_by file.now (last_of kept.now) again) again }
{
    judged(begins_by(file, last_of(kept), again), again)
}
