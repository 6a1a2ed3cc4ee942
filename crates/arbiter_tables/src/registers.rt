ghost use Rattle.std.specs.Prelude.{◌≡◌, ◌<◌, ◌^◌, ◌+◌, [], None, option_map, true, is_some, IsTrue, IsOk, OnOk, OnErr};
ghost use Rattle.fabric_terms.specs.declared.record.Record.TheVariants.{PreparedBy, VotedFor, DoneFor};
ghost use Rattle.fabric_lemmas.specs.Maps.{rises};
ghost use Rattle.unit_rules.specs.Registers.{register_of, register_after, vote_in};
ghost use Rattle.arbiter_tables.specs.Registers.{registered, one_of};

use crate::votes::FirstVotes;
use fabric_terms::OutOfMemory;
use indexmap::IndexMap;
use ring_points::{Config, Epoch, Who};
use std::alloc::Global;
use std::marker::Model;
use unit_rules::Preparation;

/// What an arbitrator keeps of each partition: the highest prepared epoch and for whom it was prepared, the first vote
/// of each epoch, and the done configuration of the highest epoch. Contracts see the registers of the rules.
#[derive(Drop)]
pub struct Registers {
    prepared: IndexMap<u16, Preparation>,
    votes: FirstVotes,
    done: IndexMap<u16, Config>,
}

impl Model for Registers {
    ghost use Rattle.unit_rules.specs.Registers.{Registers};
    ghost use Rattle.arbiter_tables.specs.Registers.{registers_of};

    ghost Value = { Registers };

    ghost view = { λ a. registers_of a.prepared.entries a.votes a.done.entries };
}

impl Registers {
    /// Nothing is kept. The tables grow by this allocator.
    pub fn new(alloc: Global) -> Self
        ensures { result ≡ [] }
    {
        Registers {
            prepared: IndexMap::new(alloc),
            votes: FirstVotes::new(alloc),
            done: IndexMap::new(alloc),
        }
    }

    /// The prepared epoch of a partition and for whom it was prepared, if one was.
    #[tactic(auto, using(crate::proofs::LookUps::as_registers))]
    pub fn prepared(&self, partition: u16) -> Option<Preparation>
        ensures { result ≡ (register_of partition self.now).prepared }
    {
        self.prepared.get(&partition).copied()
    }

    /// The first vote of an epoch of a partition, if there was one.
    #[tactic(auto, using(crate::proofs::LookUps::as_registers))]
    pub fn vote_of(&self, partition: u16, epoch: Epoch) -> Option<&Config>
        ensures { option_map (λ vote. vote.now) result ≡ vote_in epoch (register_of partition self.now).votes }
    {
        self.votes.get(partition, epoch)
    }

    /// The done configuration of a partition, if one is.
    #[tactic(auto, using(crate::proofs::LookUps::as_registers))]
    pub fn done(&self, partition: u16) -> Option<&Config>
        ensures { option_map (λ done. done.now) result ≡ (register_of partition self.now).done }
    {
        self.done.get(&partition)
    }

    /// How many entries they have: the prepared epochs, the votes, and the done configurations.
    #[tactic(auto, using(crate::proofs::Counts::registers_counted, crate::proofs::Views::rises_always))]
    pub fn entries(&self) -> usize
        requires few { registered self.now < 2 ^ 64 }
        ensures entries { result ≡ registered self.now }
        ensures rises { rises self.now ≡ true }
    {
        self.prepared.len() + self.votes.len() + self.done.len()
    }

    /// Keeps an epoch as prepared for somebody, in place of what was prepared before. For a partition of which an epoch
    /// was prepared no memory is taken.
    #[tactic(auto, using(crate::proofs::Views::as_changes, crate::proofs::LookUps::as_registers, crate::proofs::Counts::as_counts))]
    pub fn prepare(
        &mut self,
        partition: u16,
        epoch: Epoch,
        preparer: Who,
    ) -> Result<(), OutOfMemory>
        ensures ok { OnOk result (self.new ≡ register_after self.old (PreparedBy partition epoch preparer)) }
        ensures entries { OnOk result (registered self.new + one_of (register_of partition self.old).prepared
            ≡ registered self.old + 1) }
        ensures stands { IsTrue (is_some (register_of partition self.old).prepared) → IsOk result }
        ensures err { OnErr result (self.new ≡ self.old) }
    {
        let preparation = Preparation { epoch, preparer };
        match self.prepared.insert(partition, preparation) {
            Ok(_) => Ok(()),
            Err(_) => Err(OutOfMemory),
        }
    }

    /// Keeps the first vote of an epoch.
    #[tactic(auto, using(crate::proofs::Views::as_changes, crate::proofs::LookUps::as_registers, crate::proofs::Counts::as_counts))]
    pub fn vote(&mut self, config: &Config) -> Result<(), OutOfMemory>
        requires { vote_in config.now.epoch (register_of config.now.partition self.old).votes ≡ None }
        ensures ok { OnOk result (self.new ≡ register_after self.old (VotedFor config.now)) }
        ensures entries { OnOk result (registered self.new ≡ registered self.old + 1) }
        ensures err { OnErr result (self.new ≡ self.old) }
    {
        self.votes.insert(config)
    }

    /// Keeps a configuration as done, in place of what was done before. For a partition of which one is done no memory
    /// is taken.
    #[tactic(auto, using(crate::proofs::Views::as_changes, crate::proofs::LookUps::as_registers, crate::proofs::Counts::as_counts))]
    pub fn finish(&mut self, config: &Config) -> Result<(), OutOfMemory>
        ensures ok { OnOk result (self.new ≡ register_after self.old (DoneFor config.now)) }
        ensures entries { OnOk result (registered self.new + one_of (register_of config.now.partition self.old).done
            ≡ registered self.old + 1) }
        ensures stands { IsTrue (is_some (register_of config.now.partition self.old).done) → IsOk result }
        ensures err { OnErr result (self.new ≡ self.old) }
    {
        match self.done.insert(config.partition, config.copy()) {
            Ok(_) => Ok(()),
            Err(_) => Err(OutOfMemory),
        }
    }
}
