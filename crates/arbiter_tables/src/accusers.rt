ghost use Rattle.std.specs.Prelude.{◌≡◌, ◌<◌, ◌^◌, ◌∷◌, ◌++◌, [], None, length, OnOk, OnErr};
ghost use Rattle.ring_rules.specs.Arbiters.{first_accuser};

use crate::accused::Accused;
use fabric_terms::OutOfMemory;
use indexmap::IndexMap;
use ring_points::Who;
use std::alloc::Global;
use std::marker::Model;

/// Each accused instance with its first accuser. Contracts see them as a list, in the order of the accusations.
#[derive(Drop)]
pub struct FirstAccusers {
    table: IndexMap<Accused, Who>,
}

impl Model for FirstAccusers {
    ghost use Rattle.ring_rules.specs.Arbiters.{Accusations};

    ghost Value = { Accusations };

    ghost use Rattle.arbiter_tables.specs.Keys.{accusations_of};

    ghost view = { λ a. accusations_of a.table.entries };
}

impl FirstAccusers {
    /// Nobody is accused. The table grows by this allocator.
    pub fn new(alloc: Global) -> Self
        ensures { result ≡ [] }
    {
        FirstAccusers {
            table: IndexMap::new(alloc),
        }
    }

    /// The first accuser of an instance, if it is accused.
    #[tactic(auto, using(crate::proofs::AccuserEntries::as_accusations))]
    pub fn get(&self, victim: Who) -> Option<Who>
        ensures { result ≡ first_accuser victim self.now }
    {
        self.table.get(&Accused::new(victim)).copied()
    }

    /// How many instances are accused.
    #[tactic(auto, using(crate::proofs::AccuserEntries::as_accusations))]
    pub fn len(&self) -> usize
        ensures len { result ≡ length self.now }
        ensures small { result < 2 ^ 63 }
    {
        self.table.len()
    }

    /// Keeps the first accuser of an instance that is not accused yet.
    #[tactic(auto, using(crate::proofs::AccuserEntries::as_accusations))]
    pub fn insert(&mut self, victim: Who, first: Who) -> Result<(), OutOfMemory>
        requires { first_accuser victim self.old ≡ None }
        ensures ok { OnOk result (self.new ≡ self.old ++ (victim, first) ∷ []) }
        ensures err { OnErr result (self.new ≡ self.old) }
    {
        match self.table.insert(Accused::new(victim), first) {
            Ok(_) => Ok(()),
            Err(_) => Err(OutOfMemory),
        }
    }
}
