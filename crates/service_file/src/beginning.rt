ghost use Rattle.std.specs.Prelude.{◌≡◌};
ghost use Rattle.service_file.specs.Beginnings.{anew_by, begins_by, is_noted};

use crate::actor_file::ActorFile;
use crate::settings::Again;

/// How the start of an actor goes on, once its folder and its records are read.
#[derive(Clone, Copy, Debug, PartialEq, Eq)]
pub enum Beginning {
    /// The next instance begins as any other; so does an arbitrator.
    Usual,
    /// The line `again N.K` is appended to the file and synced. Then instance K begins with the whole ring.
    NoteAnew,
    /// Instance K begins with the whole ring. The file has its line: a process ended before its Boot record was
    /// synced.
    Anew,
    /// The next instance begins as any other, and the log says `again passed`: instance K has begun.
    Passed,
    /// `fault folder emptied`: records that the file knows of are not kept.
    Emptied,
    /// `fault service instance`: K is not the next instance.
    WrongInstance,
}

fn is_noted(again: Again, noted: &[Again]) -> bool
    ensures { result ≡ is_noted again noted.now }
{
    noted.iter().any(|it| it.node == again.node && it.instance == again.instance)
}

/// By the last instance of the records, and whether the file has the line of this one.
fn anew_by(last: u32, instance: u32, noted: bool) -> Beginning
    ensures { result ≡ anew_by last instance noted }
{
    if u64::from(last) + 1 == u64::from(instance) {
        if noted {
            Beginning::Anew
        } else {
            Beginning::NoteAnew
        }
    } else if instance <= last {
        Beginning::Passed
    } else if noted {
        Beginning::Emptied
    } else {
        Beginning::WrongInstance
    }
}

/// How a start goes on, by the file `actor`, the last instance that the records name, and the `again` of line 2. The
/// last instance is None where no record is kept, and 0 for an arbitrator.
#[tactic(auto, unfolding(crate::specs::Beginnings::begins_by))]
pub fn begins_by(file: &ActorFile, last: Option<u32>, again: Option<Again>) -> Beginning
    ensures { result ≡ begins_by file.now last again }
{
    if file.has_begun && last.is_none() {
        return Beginning::Emptied;
    }
    match again {
        Some(again) if again.node == file.actor => {
            let noted = is_noted(again, file.again.as_slice());
            anew_by(last.unwrap_or(0), again.instance, noted)
        }
        _ => Beginning::Usual,
    }
}
