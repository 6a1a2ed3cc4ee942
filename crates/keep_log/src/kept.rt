ghost use Rattle.std.specs.Prelude.{◌≡◌, ◌∷◌, ◌++◌, [], OnOk};

use fabric_terms::{OutOfMemory, Record};
use replica_core::Replica;
use std::alloc::Global;
use std::marker::Model;

/// Records in the order in which they were kept. Contracts see them as their list.
#[derive(Drop)]
pub struct Records {
    items: Vec<Record>,
}

impl Model for Records {
    ghost use Rattle.std.specs.Prelude.{List};
    ghost use Rattle.fabric_terms.specs.declared.record.Record.{Record};

    ghost Value = { List Record };

    ghost view = { λ a. a.items.items };
}

impl Records {
    pub(crate) fn new(alloc: Global) -> Self
        ensures { result ≡ [] }
    {
        Records {
            items: Vec::new(alloc),
        }
    }

    pub fn as_slice(&self) -> &[Record]
        ensures { result.now ≡ self.now }
    {
        self.items.as_slice()
    }

    pub(crate) fn push(&mut self, item: Record) -> Result<(), OutOfMemory>
        ensures { OnOk result (self.new ≡ self.old ++ item ∷ []) }
    {
        self.items.push(item)?;
        Ok(())
    }
}

/// The replicas of a node, rising by partition. Contracts see them as their list.
#[derive(Drop)]
pub struct Replicas {
    items: Vec<Replica>,
}

impl Model for Replicas {
    ghost use Rattle.std.specs.Prelude.{List};
    ghost use Rattle.replica_core.specs.Replicas.{Replica};

    ghost Value = { List Replica };

    ghost view = { λ a. a.items.items };
}

impl Replicas {
    pub(crate) fn new(items: Vec<Replica>) -> Self
        ensures { result ≡ items.items }
    {
        Replicas { items }
    }

    pub fn as_slice(&self) -> &[Replica]
        ensures { result.now ≡ self.now }
    {
        self.items.as_slice()
    }

    /// The replicas themselves, for the node that starts with them.
    pub fn into_vec(self) -> Vec<Replica>
        ensures { result.items ≡ self }
    {
        self.items
    }
}

/// What an actor's records amount to: a node's boots and replicas, an arbitrator's own records.
#[derive(Drop)]
pub struct Kept {
    /// How many instances of the node have begun.
    pub boots: u32,
    /// The records of an arbitrator.
    pub arbiter: Records,
    /// One for each partition that the records of a node name. None has a role; what one collected since the last boot
    /// is still there, and the boot of the next instance ends that.
    pub replicas: Replicas,
}
