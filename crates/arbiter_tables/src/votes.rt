ghost use Rattle.std.specs.Prelude.{◌≡◌, ◌<◌, ◌^◌, ◌∷◌, ◌++◌, [], None, length, option_map, OnOk, OnErr};
ghost use Rattle.arbiter_tables.specs.Ballots.{first_vote};

use crate::ballot::Ballot;
use fabric_terms::OutOfMemory;
use indexmap::IndexMap;
use ring_points::{Config, Epoch};
use std::alloc::Global;
use std::marker::Model;

/// The first vote of each epoch of each partition. Contracts see them as a list, in the order of the votes.
#[derive(Drop)]
pub struct FirstVotes {
    table: IndexMap<Ballot, Config>,
}

impl Model for FirstVotes {
    ghost use Rattle.std.specs.Prelude.{List};
    ghost use Rattle.ring_points.specs.declared.unit.Config.{Config};

    ghost Value = { List Config };

    ghost use Rattle.arbiter_tables.specs.Ballots.{votes_of, AreFiled};

    ghost view = { λ a. votes_of a.table.entries };

    ghost invariant = { λ a. AreFiled a.table.entries };
}

impl FirstVotes {
    /// Nothing is voted for. The table grows by this allocator.
    pub fn new(alloc: Global) -> Self
        ensures { result ≡ [] }
    {
        FirstVotes {
            table: IndexMap::new(alloc),
        }
    }

    /// The vote of an epoch of a partition, if there was one.
    #[tactic(auto, using(crate::proofs::VoteEntries::as_votes))]
    pub fn get(&self, partition: u16, epoch: Epoch) -> Option<&Config>
        ensures { option_map (λ vote. vote.now) result ≡ first_vote partition epoch self.now }
    {
        self.table.get(&Ballot::new(partition, epoch))
    }

    /// How many votes there were.
    #[tactic(auto, using(crate::proofs::VoteEntries::as_votes))]
    pub fn len(&self) -> usize
        ensures len { result ≡ length self.now }
        ensures small { result < 2 ^ 63 }
    {
        self.table.len()
    }

    /// Keeps the first vote of an epoch of a partition.
    #[tactic(auto, using(crate::proofs::VoteEntries::as_votes))]
    pub fn insert(&mut self, vote: &Config) -> Result<(), OutOfMemory>
        requires { first_vote vote.now.partition vote.now.epoch self.old ≡ None }
        ensures ok { OnOk result (self.new ≡ self.old ++ vote.now ∷ []) }
        ensures err { OnErr result (self.new ≡ self.old) }
    {
        let ballot = Ballot::new(vote.partition, vote.epoch);
        match self.table.insert(ballot, vote.copy()) {
            Ok(_) => Ok(()),
            Err(_) => Err(OutOfMemory),
        }
    }
}
