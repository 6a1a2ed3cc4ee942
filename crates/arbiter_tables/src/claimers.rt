ghost use Rattle.std.specs.Prelude.{◌≡◌, ◌<◌, ◌^◌, ◌∷◌, ◌++◌, [], None, length, OnOk, OnErr};
ghost use Rattle.ring_rules.specs.Arbiters.{first_claimer};

use crate::round::Round;
use fabric_terms::OutOfMemory;
use indexmap::IndexMap;
use ring_points::Who;
use std::alloc::Global;
use std::marker::Model;

/// Each claimed round about a victim with its first claimer. Contracts see them as a list, in the order of the claims.
#[derive(Drop)]
pub struct FirstClaimers {
    table: IndexMap<Round, Who>,
}

impl Model for FirstClaimers {
    ghost use Rattle.ring_rules.specs.Arbiters.{RoundClaims};

    ghost Value = { RoundClaims };

    ghost use Rattle.arbiter_tables.specs.Keys.{claims_of};

    ghost view = { λ a. claims_of a.table.entries };
}

impl FirstClaimers {
    /// No round is claimed. The table grows by this allocator.
    pub fn new(alloc: Global) -> Self
        ensures { result ≡ [] }
    {
        FirstClaimers {
            table: IndexMap::new(alloc),
        }
    }

    /// The first claimer of a round about a victim, if the round is claimed.
    #[tactic(auto, using(crate::proofs::ClaimerEntries::as_claims))]
    pub fn get(&self, victim: Who, round: u8) -> Option<Who>
        ensures { result ≡ first_claimer victim round self.now }
    {
        self.table.get(&Round::new(victim, round)).copied()
    }

    /// How many rounds are claimed.
    #[tactic(auto, using(crate::proofs::ClaimerEntries::as_claims))]
    pub fn len(&self) -> usize
        ensures len { result ≡ length self.now }
        ensures small { result < 2 ^ 63 }
    {
        self.table.len()
    }

    /// Keeps the first claimer of a round that is not claimed yet.
    #[tactic(auto, using(crate::proofs::ClaimerEntries::as_claims))]
    pub fn insert(&mut self, victim: Who, round: u8, claimer: Who) -> Result<(), OutOfMemory>
        requires { first_claimer victim round self.old ≡ None }
        ensures ok { OnOk result (self.new ≡ self.old ++ (victim, round, claimer) ∷ []) }
        ensures err { OnErr result (self.new ≡ self.old) }
    {
        match self.table.insert(Round::new(victim, round), claimer) {
            Ok(_) => Ok(()),
            Err(_) => Err(OutOfMemory),
        }
    }
}
