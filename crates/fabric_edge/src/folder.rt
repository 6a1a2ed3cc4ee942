use crate::folder_paths::{make_folder, path_of};
use crate::held_file::{HeldFile, bytes_of};
use crate::lock_files::LockFiles;
use crate::record_file::{frame, records_in};
use std::alloc::Global;
use std::collections::BTreeMap;
use std::fs::{File, OpenOptions};
use std::io;
use std::io::ErrorKind;

/// How this process stands to the file of an actor, once it has read or appended to it.
#[derive(Drop)]
enum Standing<R: LockFiles> {
    /// The file was missing when it was read. If records stand in it at the first append, another process wrote them.
    Missing,
    /// Another process had the file when it was read. What it has appended since was not read.
    Refused,
    /// The file is this process's.
    Held(HeldFile<R>),
}

/// The files of records, one for each actor. A file is locked as it is read, and stays so: a second process of an actor
/// reads the records, and is refused its first append. Reading changes nothing, so a process that was started by
/// mistake leaves the records as they are.
#[derive(Drop)]
pub struct Folder<'a, R: LockFiles> {
    rt: &'a R,
    alloc: Global,
    files: BTreeMap<u16, Standing<R>>,
    framed: Vec<u8>,
}

impl<'a, R: LockFiles> Folder<'a, R> {
    pub fn new(rt: &'a R, alloc: Global) -> Self {
        Folder {
            rt,
            alloc,
            files: BTreeMap::new(alloc),
            framed: Vec::new(alloc),
        }
    }
}

impl<R: LockFiles> Folder<'_, R> {
    /// The records in the file of an actor; none where it has no file.
    pub fn read(&mut self, actor: u16) -> io::Result<Vec<Vec<u8>>> {
        if !matches!(self.files.get(&actor), Some(Standing::Held(_))) {
            let standing = self.standing(actor)?;
            self.files.insert(actor, standing)?;
        }
        if matches!(self.files.get(&actor), Some(Standing::Missing)) {
            return Ok(Vec::new(self.alloc));
        }
        let mut file = File::open(self.rt, path_of(self.alloc, actor)?)?;
        Ok(records_in(self.alloc, &bytes_of(self.alloc, &mut file)?)?.0)
    }

    /// Appends a record to the file of an actor by one write: it is pending until the file is synced. File and folder
    /// are made where they are missing.
    pub fn append(&mut self, actor: u16, bytes: &[u8]) -> io::Result<()> {
        let Ok(count) = u16::try_from(bytes.len()) else {
            return Err(io::Error::from(ErrorKind::InvalidInput));
        };
        frame(&mut self.framed, bytes, count)?;
        self.claim(actor)?;
        match self.files.get_mut(&actor) {
            Some(Standing::Held(file)) => file.append(self.rt, self.alloc, &self.framed),
            _ => Err(io::Error::from(ErrorKind::WouldBlock)),
        }
    }

    /// Waits until the records of an actor are kept for good.
    pub fn sync(&mut self, actor: u16) -> io::Result<()> {
        match self.files.get_mut(&actor) {
            Some(Standing::Held(file)) => file.sync(),
            _ => Ok(()),
        }
    }

    /// Tries to hold the file of an actor, where it is there.
    fn standing(&self, actor: u16) -> io::Result<Standing<R>> {
        match self.held(actor, false) {
            Ok(file) => Ok(Standing::Held(file)),
            Err(error) if error.kind() == ErrorKind::NotFound => Ok(Standing::Missing),
            Err(error) if error.kind() == ErrorKind::WouldBlock => Ok(Standing::Refused),
            Err(error) => Err(error),
        }
    }

    /// Holds the file of an actor, unless another process may have appended to it since it was read.
    fn claim(&mut self, actor: u16) -> io::Result<()> {
        let was_missing = match self.files.get(&actor) {
            Some(Standing::Held(_) | Standing::Refused) => return Ok(()),
            Some(Standing::Missing) => true,
            None => false,
        };
        make_folder(self.rt)?;
        let file = self.held(actor, true)?;
        if was_missing && !file.is_empty()? {
            return Err(io::Error::from(ErrorKind::AlreadyExists));
        }
        self.files.insert(actor, Standing::Held(file))?;
        Ok(())
    }

    /// The file of an actor, open and locked. It is made where it is missing, if so wanted.
    fn held(&self, actor: u16, makes: bool) -> io::Result<HeldFile<R>> {
        let file = OpenOptions::new()
            .read(true)
            .append(true)
            .create(makes)
            .open(self.rt, path_of(self.alloc, actor)?)?;
        self.rt.try_lock(&file)?;
        Ok(HeldFile::new(file))
    }
}
