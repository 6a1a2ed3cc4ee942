ghost use Rattle.std.specs.Prelude.{◌≡◌, None, OnOk, OnErr};
ghost use Rattle.fabric_terms.specs.declared.record.Record.TheVariants.{AccusedBy, ClaimedBy};
ghost use Rattle.ring_rules.specs.Arbiters.{first_accuser, first_claimer, no_table, table_with};
ghost use Rattle.arbiter_tables.specs.Tables.{entries_of};

use crate::accusers::FirstAccusers;
use crate::claimers::FirstClaimers;
use fabric_terms::OutOfMemory;
use ring_points::Who;
use std::alloc::Global;
use std::marker::Model;

/// What an arbitrator keeps of the ring: the first accuser of each accused instance, and the first claimer of each
/// later round about one. Contracts see both as lists, in the order in which they were kept.
#[derive(Drop)]
pub struct Table {
    accusers: FirstAccusers,
    claimers: FirstClaimers,
}

impl Model for Table {
    ghost use Rattle.ring_rules.specs.Arbiters.{Table};

    ghost Value = { Table };

    ghost view = { λ a. record { accusations = a.accusers; claims = a.claimers } };
}

impl Table {
    /// Nothing is kept. The table grows by this allocator.
    pub fn new(alloc: Global) -> Self
        ensures { result ≡ no_table }
    {
        Table {
            accusers: FirstAccusers::new(alloc),
            claimers: FirstClaimers::new(alloc),
        }
    }

    /// The first accuser of an instance, if it is accused.
    pub fn first_accuser(&self, victim: Who) -> Option<Who>
        ensures { result ≡ first_accuser victim self.now.accusations }
    {
        self.accusers.get(victim)
    }

    /// The first claimer of a later round about a victim, if the round is claimed.
    pub fn first_claimer(&self, victim: Who, round: u8) -> Option<Who>
        ensures { result ≡ first_claimer victim round self.now.claims }
    {
        self.claimers.get(victim, round)
    }

    /// How many entries it has: the accused instances, and the claimers of later rounds.
    pub fn entries(&self) -> usize
        ensures { result ≡ entries_of self.now }
    {
        self.accusers.len() + self.claimers.len()
    }

    /// Keeps the first accuser of an instance that is not accused yet.
    pub fn accuse(&mut self, victim: Who, first: Who) -> Result<(), OutOfMemory>
        requires { first_accuser victim self.old.accusations ≡ None }
        ensures ok { OnOk result (self.new ≡ table_with self.old (AccusedBy victim first)) }
        ensures err { OnErr result (self.new ≡ self.old) }
    {
        self.accusers.insert(victim, first)
    }

    /// Keeps the first claimer of a later round that is not claimed yet.
    pub fn claim(&mut self, victim: Who, round: u8, claimer: Who) -> Result<(), OutOfMemory>
        requires { first_claimer victim round self.old.claims ≡ None }
        ensures ok { OnOk result (self.new ≡ table_with self.old (ClaimedBy victim round claimer)) }
        ensures err { OnErr result (self.new ≡ self.old) }
    {
        self.claimers.insert(victim, round, claimer)
    }
}
