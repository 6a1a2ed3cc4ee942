use crate::actor_lines::whole_lines;
use crate::files::read_most;
use crate::limits::MAX_ACTOR_FILE;
use crate::start_fault::{StartFault, fault_of};
use fabric_edge::LockFiles;
use std::alloc::Global;
use std::fs::{File, OpenFile, OpenOptions};
use std::io;
use std::io::{ErrorKind, Seek, SeekFrom, Write};
use std::os::unix::fs::OpenOptionsExt;
use std::rt::Files;

/// The name of the file in the current folder.
pub(crate) const ACTOR: &str = "actor";

/// The mode of the file where it is made.
const ACTOR_MODE: u32 = 0o600;

/// The file `actor` of the current folder. This process alone has its lock, as long as it has this value.
#[derive(Drop)]
pub struct HeldActor<R: Files> {
    file: R::File,
    /// Where its whole lines end, if a part of a line follows them.
    torn_at: Option<u64>,
}

/// Opens the file, makes it where it is missing, and waits until its name is kept for good.
fn open<R: LockFiles>(rt: &R) -> io::Result<R::File> {
    let file = OpenOptions::new()
        .read(true)
        .append(true)
        .create(true)
        .mode(ACTOR_MODE)
        .open(rt, ACTOR)?;
    if !file.metadata()?.is_file() {
        return Err(io::Error::from(ErrorKind::InvalidInput));
    }
    Ok(file)
}

/// Waits until the file and its name are kept for good.
fn sync<R: Files>(rt: &R, file: &R::File) -> io::Result<()> {
    file.sync_all()?;
    File::open(rt, ".")?.sync_all()
}

/// Takes the lock of the file `actor`, which is made where it is missing.
pub fn hold_actor<R: LockFiles>(rt: &R) -> Result<HeldActor<R>, StartFault> {
    let file = open(rt).map_err(|error| fault_of(error, StartFault::FolderKeep))?;
    match rt.try_lock(&file) {
        Ok(()) => {}
        Err(error) if error.kind() == ErrorKind::WouldBlock => {
            return Err(StartFault::FolderLocked);
        }
        Err(error) => return Err(fault_of(error, StartFault::FolderKeep)),
    }
    sync(rt, &file).map_err(|error| fault_of(error, StartFault::FolderKeep))?;
    Ok(HeldActor {
        file,
        torn_at: None,
    })
}

impl<R: Files> HeldActor<R> {
    /// The whole lines of the file. A part of a line behind them is of a process that ended before it was kept.
    pub fn read(&mut self, alloc: Global) -> Result<Vec<u8>, StartFault> {
        self.lines(alloc)
            .map_err(|error| fault_of(error, StartFault::FolderKeep))
    }

    /// Appends a line, and waits until it is kept for good. A part of a line that was found is cut off before.
    pub fn append(&mut self, line: &[u8]) -> Result<(), StartFault> {
        self.add(line)
            .map_err(|error| fault_of(error, StartFault::FolderKeep))
    }

    fn lines(&mut self, alloc: Global) -> io::Result<Vec<u8>> {
        self.file.seek(SeekFrom::Start(0))?;
        let mut bytes = read_most(alloc, &mut self.file, MAX_ACTOR_FILE + 1)?;
        if bytes.len() > MAX_ACTOR_FILE {
            return Err(io::Error::from(ErrorKind::InvalidData));
        }
        let end = whole_lines(&bytes);
        self.torn_at = (end < bytes.len()).then_some(end as u64);
        bytes.truncate(end);
        Ok(bytes)
    }

    fn add(&mut self, line: &[u8]) -> io::Result<()> {
        if let Some(end) = self.torn_at {
            self.file.set_len(end)?;
            self.torn_at = None;
        }
        self.file.write_all(line)?;
        self.file.sync_all()
    }
}
