ghost use Rattle.std.specs.Prelude.{◌≡◌, [], nat_le, true};
ghost use Rattle.fabric_lemmas.specs.Maps.{rises};
ghost use Rattle.ring_rules.specs.Arbiters.{first_accuser, no_table, takes_frame};
ghost use Rattle.keep_log.specs.Places.{is_new, is_once};
ghost use Rattle.arbiter_tables.specs.Registers.{are_placed, is_placed};
ghost use Rattle.arbiter_core.specs.Arbiters.{Answers, Gives, entries, frame_call, fresh, most_entries, remember_call};
ghost use Rattle.arbiter_core.specs.Arbiters.{restore_call};
ghost use Rattle.arbiter_core.specs.Memory.{KeepsIfShort};

mod questions;
mod recording;
mod rulings;

use crate::answer::{Answer, ArbiterError};
use arbiter_tables::{Registers, Table};
use fabric_terms::{Body, Message, Record};
use ring_points::{ARBITRATORS, Who};
use std::alloc::Global;
use std::marker::Model;

/// How many entries an arbitrator can keep: the accused instances, the claimers of later rounds, the prepared epochs,
/// the votes, and the done configurations.
pub const MAX_ARBITER_ENTRIES: usize = 1_000_000;

/// An arbitrator: each accused instance with its first accuser, each later round about one with its first claimer, and
/// the register of each partition. Contracts see the first two in the order in which they were kept.
#[derive(Drop)]
pub struct Arbiter {
    /// From 1.
    number: u16,
    table: Table,
    registers: Registers,
}

impl Model for Arbiter {
    ghost use Rattle.std.specs.Prelude.{◌+◌, ◌≤◌};
    ghost use Rattle.arbiter_tables.specs.Registers.{registered};
    ghost use Rattle.arbiter_tables.specs.Tables.{entries_of};
    ghost use Rattle.arbiter_core.specs.Arbiters.{Arbiter, most_entries};

    ghost Value = { Arbiter };

    ghost view = { λ a. record { number = a.number; table = a.table; registers = a.registers } };

    ghost invariant = { λ a. entries_of a.table + registered a.registers ≤ most_entries };
}

impl Arbiter {
    /// An arbitrator that has recorded nothing. Its tables grow by this allocator.
    pub fn new(alloc: Global, number: u16) -> Self
        ensures { result ≡ fresh number }
    {
        Arbiter {
            number,
            table: Table::new(alloc),
            registers: Registers::new(alloc),
        }
    }

    /// The first accuser of an instance, if it is accused here.
    pub fn first_accuser(&self, victim: Who) -> Option<Who>
        ensures { result ≡ first_accuser victim self.now.table.accusations }
    {
        self.table.first_accuser(victim)
    }

    /// How many entries it has: the accused instances, the claimers of later rounds, the prepared epochs, the votes, and
    /// the done configurations.
    pub fn entries(&self) -> usize
        ensures { result ≡ entries self.now }
    {
        self.table.entries() + self.registers.entries()
    }

    /// Whether there is no place for an entry.
    fn is_full(&self) -> bool
        ensures full { result ≡ nat_le most_entries (entries self.now) }
        ensures rises { rises self.now.registers ≡ true }
    {
        self.table.entries() + self.registers.entries() >= MAX_ARBITER_ENTRIES
    }

    /// Keeps what a record says.
    fn remember(&mut self, item: &Record) -> Result<(), ArbiterError>
        requires new { is_new self.old.table item.now ≡ true }
        requires placed { is_placed self.old.registers item.now ≡ true }
        ensures { Answers (remember_call item.now self.old) self.old self.new result }
    {
        match item {
            Record::AccusedBy { victim, first } => {
                self.keep_accuser(*victim, *first)?;
            }
            Record::ClaimedBy {
                victim,
                round,
                claimer,
            } => {
                self.keep_claimer(*victim, *round, *claimer)?;
            }
            Record::PreparedBy {
                partition,
                epoch,
                preparer,
            } => {
                self.keep_prepared(*partition, *epoch, *preparer)?;
            }
            Record::VotedFor { config } => {
                self.keep_vote(config)?;
            }
            Record::DoneFor { config } => {
                self.keep_done(config)?;
            }
            _ => {}
        }
        Ok(())
    }

    /// The arbitrator that made these records, each in its place. `TableFull` comes exactly where they make more than
    /// 1,000,000 entries.
    pub fn restore(alloc: Global, number: u16, records: &[Record]) -> Result<Self, ArbiterError>
        requires once { is_once no_table records.now ≡ true }
        requires placed { are_placed [] records.now ≡ true }
        ensures { Gives (restore_call number records.now) result }
    {
        let mut arbiter = Arbiter::new(alloc, number);
        for item in records {
            arbiter.remember(item)?;
        }
        Ok(arbiter)
    }

    /// Whether a message is of a node to this arbitrator.
    fn takes(&self, message: &Message) -> bool
        ensures { result ≡ takes_frame self.now.number message.now }
    {
        message.to.actor.checked_sub(self.number) == Some(ARBITRATORS)
            && message.from.actor <= ARBITRATORS
    }

    /// Answers an accusation, a claim or a question about a partition that a node sent to this arbitrator; a claim
    /// about a victim that nobody has accused here and every other message change nothing and get no answer.
    /// `TableFull` comes exactly where the 1,000,001st entry would be made.
    pub fn on_frame(&mut self, message: &Message) -> Result<Answer, ArbiterError>
        ensures answers { Answers (frame_call message.now self.old) self.old self.new result }
        ensures memory { KeepsIfShort (frame_call message.now self.old) result }
    {
        if !self.takes(message) {
            return Ok(Answer::Nothing);
        }
        match &message.body {
            Body::Accuse { victim } => self.rule(message.from, *victim),
            Body::Claim { victim, round } => self.settle(message.from, *victim, *round),
            Body::Prepare { partition, epoch } => self.prepare(message.from, *partition, *epoch),
            Body::Vote { config } => self.vote(message.from, config),
            Body::DoneAsk { config } => self.finish(message.from, config),
            _ => Ok(Answer::Nothing),
        }
    }
}
