ghost use Rattle.std.specs.Prelude.{◌≡◌};
ghost use Rattle.edge_io.specs.Edge.{HasCauseOf};

use crate::failures::Failures;
use crate::folder::Folder;
use crate::lock_files::LockFiles;
use edge_io::{EdgeRefusal, Keeper};
use std::alloc::Global;
use std::marker::Model;

/// Records in files: those of an actor in `kept/<actor>`, under the current folder. Per record the file holds
/// its length in two bytes, big-endian, then the record. Folder and file are made at the first append where
/// they are missing. What is no whole record at the end of a file is left out where the list is read, and cut
/// off before the first append, since no append of it answered Ok.
#[derive(Drop)]
pub struct FolderKeeper<'a, R: LockFiles> {
    folder: Folder<'a, R>,
    failures: Failures,
}

impl<'a, R: LockFiles> Model for FolderKeeper<'a, R> {
    ghost use Rattle.std.specs.Prelude.{ℕ};

    ghost Value = { ℕ };

    ghost view = { λ a. a.failures };
}

impl<'a, R: LockFiles> FolderKeeper<'a, R> {
    /// No file is open, and none has failed. Contracts see how often one failed.
    pub fn new(rt: &'a R, alloc: Global) -> Self
        ensures { result ≡ 0 }
    {
        FolderKeeper {
            folder: Folder::new(rt, alloc),
            failures: Failures::none(),
        }
    }
}

impl<R: LockFiles> FolderKeeper<'_, R> {
    /// Adds a record at the end of those of an actor. It is pending until `sync`.
    pub fn append(&mut self, actor: u16, bytes: &[u8]) -> Result<(), EdgeRefusal>
        ensures { HasCauseOf EdgeRefusal.Failed self.old self.new result }
    {
        match self.folder.append(actor, bytes) {
            Ok(()) => Ok(()),
            Err(error) => Err(self.failures.refusal(error)),
        }
    }

    /// Waits until the records of an actor are kept for good.
    pub fn sync(&mut self, actor: u16) -> Result<(), EdgeRefusal>
        ensures { HasCauseOf EdgeRefusal.Failed self.old self.new result }
    {
        match self.folder.sync(actor) {
            Ok(()) => Ok(()),
            Err(error) => Err(self.failures.refusal(error)),
        }
    }
}

impl<R: LockFiles> Keeper for FolderKeeper<'_, R> {
    ghost use Rattle.std.specs.Prelude.{None};

    ghost kept = { λ k actor. None };

    ghost faults = { λ k. k };

    ghost plan = { λ k. None };

    fn records(&mut self, actor: u16) -> Result<Vec<Vec<u8>>, EdgeRefusal> {
        match self.folder.read(actor) {
            Ok(records) => Ok(records),
            Err(error) => Err(self.failures.refusal(error)),
        }
    }

    fn append_synced(&mut self, actor: u16, bytes: &[u8]) -> Result<(), EdgeRefusal> {
        self.append(actor, bytes)?;
        self.sync(actor)
    }
}
