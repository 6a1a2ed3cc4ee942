ghost use Rattle.std.specs.Prelude.{◌≡◌};

use edge_io::{EdgeRefusal, Keeper};
use fabric_edge::{FolderKeeper, LockFiles};
use group_commit::GroupKeeper;
use std::alloc::Global;
use std::marker::Model;

/// The records of one actor in its file, of which many are synced by one call.
#[derive(Drop)]
pub struct GroupFolder<'a, R: LockFiles> {
    inner: FolderKeeper<'a, R>,
    actor: u16,
}

impl<'a, R: LockFiles> Model for GroupFolder<'a, R> {
    ghost use Rattle.std.specs.Prelude.{ℕ};

    ghost Value = { ℕ };

    ghost view = { λ a. a.inner };
}

impl<'a, R: LockFiles> GroupFolder<'a, R> {
    /// The file of this actor is not open. Contracts see how often it failed.
    pub fn new(rt: &'a R, alloc: Global, actor: u16) -> Self
        ensures { result ≡ 0 }
    {
        GroupFolder {
            inner: FolderKeeper::new(rt, alloc),
            actor,
        }
    }
}

impl<R: LockFiles> Keeper for GroupFolder<'_, R> {
    ghost use Rattle.std.specs.Prelude.{None};

    ghost kept = { λ k actor. None };

    ghost faults = { λ k. k };

    ghost plan = { λ k. None };

    fn records(&mut self, actor: u16) -> Result<Vec<Vec<u8>>, EdgeRefusal> {
        self.inner.records(actor)
    }

    fn append_synced(&mut self, actor: u16, bytes: &[u8]) -> Result<(), EdgeRefusal> {
        self.inner.append_synced(actor, bytes)
    }
}

impl<R: LockFiles> GroupKeeper for GroupFolder<'_, R> {
    ghost use Rattle.std.specs.Prelude.{None};

    ghost kept = { λ k actor. None };

    ghost appended = { λ k actor. None };

    ghost faults = { λ k. k };

    fn records(&mut self, actor: u16) -> Result<Vec<Vec<u8>>, EdgeRefusal> {
        self.inner.records(actor)
    }

    fn append(&mut self, actor: u16, bytes: &[u8]) -> Result<(), EdgeRefusal> {
        self.inner.append(actor, bytes)
    }

    fn sync(&mut self) -> Result<(), EdgeRefusal> {
        self.inner.sync(self.actor)
    }
}
