//! What is kept, each where there is a place for it, with the record of it.

ghost use Rattle.std.specs.Prelude.{◌≡◌, ◌∷◌, [], None};
ghost use Rattle.fabric_terms.specs.declared.record.Record.TheVariants.{AccusedBy, ClaimedBy, PreparedBy, VotedFor};
ghost use Rattle.fabric_terms.specs.declared.record.Record.TheVariants.{DoneFor};
ghost use Rattle.ring_rules.specs.Arbiters.{first_accuser, first_claimer};
ghost use Rattle.unit_rules.specs.Registers.{register_of, vote_in};
ghost use Rattle.arbiter_core.specs.Arbiters.{Answers, keep_call};
ghost use Rattle.arbiter_core.specs.Memory.{FitsIfShort};

use crate::answer::ArbiterError;
use crate::arbiter::Arbiter;
use fabric_terms::Record;
use ring_points::{Config, Epoch, Who};

impl Arbiter {
    /// Keeps the first accuser of a victim, and gives the record of it.
    #[tactic(auto, using(crate::proofs::Fulls::as_full))]
    pub(super) fn keep_accuser(&mut self, victim: Who, first: Who) -> Result<Record, ArbiterError>
        requires { first_accuser victim self.old.table.accusations ≡ None }
        ensures answers { Answers (keep_call (AccusedBy victim first ∷ []) (AccusedBy victim first) self.old)
            self.old self.new result }
        ensures memory { FitsIfShort (AccusedBy victim first ∷ []) self.old result }
    {
        if self.is_full() {
            return Err(ArbiterError::TableFull);
        }
        self.table.accuse(victim, first)?;
        Ok(Record::AccusedBy { victim, first })
    }

    /// Keeps the first claimer of a later round, and gives the record of it.
    #[tactic(auto, using(crate::proofs::Fulls::as_full))]
    pub(super) fn keep_claimer(
        &mut self,
        victim: Who,
        round: u8,
        claimer: Who,
    ) -> Result<Record, ArbiterError>
        requires { first_claimer victim round self.old.table.claims ≡ None }
        ensures answers { Answers (keep_call (ClaimedBy victim round claimer ∷ []) (ClaimedBy victim round claimer)
            self.old) self.old self.new result }
        ensures memory { FitsIfShort (ClaimedBy victim round claimer ∷ []) self.old result }
    {
        if self.is_full() {
            return Err(ArbiterError::TableFull);
        }
        self.table.claim(victim, round, claimer)?;
        Ok(Record::ClaimedBy {
            victim,
            round,
            claimer,
        })
    }

    /// Keeps an epoch of a partition as prepared for somebody, and gives the record of it. Where an epoch was prepared
    /// before, no entry is made.
    #[tactic(auto, using(crate::proofs::Fulls::as_full))]
    pub(super) fn keep_prepared(
        &mut self,
        partition: u16,
        epoch: Epoch,
        preparer: Who,
    ) -> Result<Record, ArbiterError>
        ensures answers { Answers (keep_call (PreparedBy partition epoch preparer ∷ [])
            (PreparedBy partition epoch preparer) self.old) self.old self.new result }
        ensures memory { FitsIfShort (PreparedBy partition epoch preparer ∷ []) self.old result }
    {
        if self.registers.prepared(partition).is_none() && self.is_full() {
            return Err(ArbiterError::TableFull);
        }
        self.registers.prepare(partition, epoch, preparer)?;
        Ok(Record::PreparedBy {
            partition,
            epoch,
            preparer,
        })
    }

    /// Keeps the first vote of an epoch, and gives the record of it.
    #[tactic(auto, using(crate::proofs::Fulls::as_full))]
    pub(super) fn keep_vote(&mut self, config: &Config) -> Result<Record, ArbiterError>
        requires { vote_in config.now.epoch (register_of config.now.partition self.old.registers).votes ≡ None }
        ensures answers { Answers (keep_call (VotedFor config.now ∷ []) (VotedFor config.now) self.old)
            self.old self.new result }
        ensures memory { FitsIfShort (VotedFor config.now ∷ []) self.old result }
    {
        if self.is_full() {
            return Err(ArbiterError::TableFull);
        }
        self.registers.vote(config)?;
        Ok(Record::VotedFor {
            config: config.copy(),
        })
    }

    /// Keeps a configuration as done, and gives the record of it. Where one was done before, no entry is made.
    #[tactic(auto, using(crate::proofs::Fulls::as_full))]
    pub(super) fn keep_done(&mut self, config: &Config) -> Result<Record, ArbiterError>
        ensures answers { Answers (keep_call (DoneFor config.now ∷ []) (DoneFor config.now) self.old)
            self.old self.new result }
        ensures memory { FitsIfShort (DoneFor config.now ∷ []) self.old result }
    {
        if self.registers.done(config.partition).is_none() && self.is_full() {
            return Err(ArbiterError::TableFull);
        }
        self.registers.finish(config)?;
        Ok(Record::DoneFor {
            config: config.copy(),
        })
    }
}
