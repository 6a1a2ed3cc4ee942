ghost use Rattle.std.specs.Prelude.{◌≡◌};
ghost use Rattle.std.specs.IoError.{error_kind};
ghost use Rattle.serve_edge.specs.Looks.{look_fault_of};

use crate::actor_lines::whole_lines;
use crate::files::{open_regular, read_most};
use crate::held_actor::ACTOR;
use crate::limits::MAX_ACTOR_FILE;
use fabric_edge::{LockFiles, RecordReader};
use std::alloc::Global;
use std::io;
use std::io::ErrorKind;
use std::rt::Files;

/// Why a folder is not read.
#[derive(Clone, Copy, Debug, PartialEq, Eq)]
pub enum LookFault {
    /// There was not enough memory.
    OutOfMemory,
    /// A process runs the actor of the folder.
    Running,
    /// What is looked for is not there, or it is not read.
    Unreadable,
}

/// Why a look failed so.
fn look_fault_of(error: io::Error) -> LookFault
    ensures { result ≡ look_fault_of (error_kind error) }
{
    match error.kind() {
        ErrorKind::OutOfMemory => LookFault::OutOfMemory,
        ErrorKind::WouldBlock => LookFault::Running,
        _ => LookFault::Unreadable,
    }
}

/// The file `actor` of any folder, to be read alone. No process can run the actor as long as this value is there, since
/// this one has the lock.
#[derive(Drop)]
pub struct SeenActor<R: Files> {
    _file: R::File,
    lines: Vec<u8>,
}

impl<R: Files> SeenActor<R> {
    /// Its whole lines. A part of a line behind them is of a process that ended before it was kept.
    pub fn lines(&self) -> &[u8] {
        self.lines.as_slice()
    }
}

fn see<R: LockFiles>(rt: &R, alloc: Global, folder: &str) -> io::Result<SeenActor<R>> {
    if folder.is_empty() {
        return Err(io::Error::from(ErrorKind::NotFound));
    }
    let path = format!(in alloc; "{folder}/{ACTOR}")?;
    let mut file = open_regular(rt, path.as_str())?;
    rt.try_lock(&file)?;
    let mut lines = read_most(alloc, &mut file, MAX_ACTOR_FILE + 1)?;
    if lines.len() > MAX_ACTOR_FILE {
        return Err(io::Error::from(ErrorKind::InvalidData));
    }
    let end = whole_lines(&lines);
    lines.truncate(end);
    Ok(SeenActor { _file: file, lines })
}

/// Reads the file `actor` of a folder, which stays as it is: nothing is made there, and nothing is written.
pub fn see_actor<R: LockFiles>(
    rt: &R,
    alloc: Global,
    folder: &str,
) -> Result<SeenActor<R>, LookFault> {
    see(rt, alloc, folder).map_err(|error| look_fault_of(error))
}

/// The records of an actor in a folder, which stays as it is.
pub fn see_records<R: LockFiles>(
    rt: &R,
    alloc: Global,
    folder: &str,
    actor: u16,
) -> Result<RecordReader<R>, LookFault> {
    RecordReader::open(rt, alloc, folder, actor).map_err(|error| look_fault_of(error))
}
