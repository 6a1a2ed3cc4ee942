ghost use Rattle.std.specs.Prelude.{◌≡◌};

use crate::failures::Failures;
use crate::folder_paths::path_in;
use crate::held_file::bytes_of;
use crate::lock_files::LockFiles;
use crate::record_file::records_in;
use edge_io::{EdgeRefusal, Keeper};
use std::alloc::Global;
use std::fs::{File, OpenFile};
use std::io::{ErrorKind, Seek, SeekFrom};
use std::marker::Model;
use std::{fs, io};

/// The records of one actor in any folder, to be read alone: nothing is made or written, and every append is refused.
/// As long as this value is there, no process appends to the file of the actor, since this one has its lock.
#[derive(Drop)]
pub struct RecordReader<R: LockFiles> {
    alloc: Global,
    actor: u16,
    /// None where the actor has no file.
    file: Option<R::File>,
    failures: Failures,
}

impl<R: LockFiles> Model for RecordReader<R> {
    ghost use Rattle.std.specs.Prelude.{ℕ};

    ghost Value = { ℕ };

    ghost view = { λ a. a.failures };
}

/// Opens the file of an actor, and takes its lock. Anything but a regular file is not opened: to open a pipe could wait
/// without end.
fn open<R: LockFiles>(rt: &R, path: &str) -> io::Result<R::File> {
    if !fs::metadata(rt, path)?.is_file() {
        return Err(io::Error::from(ErrorKind::InvalidInput));
    }
    let file = File::open(rt, path)?;
    rt.try_lock(&file)?;
    Ok(file)
}

impl<R: LockFiles> RecordReader<R> {
    /// Looks for the file of an actor under this folder. `WouldBlock` comes where a process appends to it.
    pub fn open(rt: &R, alloc: Global, folder: &str, actor: u16) -> io::Result<Self> {
        let path = path_in(alloc, folder, actor)?;
        let file = match open(rt, path.as_str()) {
            Ok(file) => Some(file),
            Err(error) if error.kind() == ErrorKind::NotFound => None,
            Err(error) => return Err(error),
        };
        Ok(RecordReader {
            alloc,
            actor,
            file,
            failures: Failures::none(),
        })
    }

    fn read(&mut self, actor: u16) -> io::Result<Vec<Vec<u8>>>
        ensures { self.new ≡ self.old }
    {
        if actor != self.actor {
            return Err(io::Error::from(ErrorKind::InvalidInput));
        }
        let Some(file) = &mut self.file else {
            return Ok(Vec::new(self.alloc));
        };
        file.seek(SeekFrom::Start(0))?;
        Ok(records_in(self.alloc, &bytes_of(self.alloc, file)?)?.0)
    }
}

impl<R: LockFiles> Keeper for RecordReader<R> {
    ghost use Rattle.std.specs.Prelude.{None};

    ghost kept = { λ k actor. None };

    ghost faults = { λ k. k };

    ghost plan = { λ k. None };

    fn records(&mut self, actor: u16) -> Result<Vec<Vec<u8>>, EdgeRefusal> {
        match self.read(actor) {
            Ok(records) => Ok(records),
            Err(error) => Err(self.failures.refusal(error)),
        }
    }

    fn append_synced(&mut self, _actor: u16, _bytes: &[u8]) -> Result<(), EdgeRefusal> {
        self.failures.add();
        Err(EdgeRefusal::Failed)
    }
}
