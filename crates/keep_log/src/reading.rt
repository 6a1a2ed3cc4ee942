ghost use Rattle.std.specs.Prelude.{◌≡◌, ◌&&◌, ◌||◌, IsTrue, IfOk, OnOk};
ghost use Rattle.std.specs.Map.{values_of};
ghost use Rattle.fabric_terms.specs.declared.record.Record.TheVariants as said;
ghost use Rattle.unit_rules.specs.Starts.{called, replica_of};
ghost use Rattle.keep_log.specs.Amounts.{nothing, with_record};
ghost use Rattle.keep_log.specs.Items.{recorded};
ghost use Rattle.keep_log.specs.Places.{is_arbiter, is_node, is_next, is_row, row_call};
ghost use Rattle.keep_log.specs.Spellings.{is_sound};
ghost use Rattle.keep_log.specs.Taking.{IsTold, Takes, Took, amount_in};

use crate::item::{Item, item_of};
use crate::kept::{Kept, Records, Replicas};
use crate::not_taken::NotTaken;
use crate::replica_map::ReplicaMap;
use arbiter_tables::{Registers, Table};
use fabric_terms::{OutOfMemory, Record};
use ring_points::{Config, Epoch, Who};
use std::alloc::Global;
use unit_rules::{is_above, is_newer};

/// What the records so far amount to, while a list of them is read.
#[derive(Drop)]
pub struct Reading {
    boots: u32,
    arbiter: Records,
    /// What the arbitrator's records say of the ring.
    table: Table,
    /// What they say of partitions.
    registers: Registers,
    replicas: ReplicaMap,
}

impl Reading {
    /// No record is read.
    pub fn new(alloc: Global) -> Self
        ensures nothing { amount_in result ≡ nothing }
        ensures told { IsTold result }
    {
        Reading {
            boots: 0,
            arbiter: Records::new(alloc),
            table: Table::new(alloc),
            registers: Registers::new(alloc),
            replicas: ReplicaMap::new(alloc),
        }
    }

    // Whether no record of an arbitrator was read.
    fn is_node(&self) -> bool
        ensures { result ≡ is_node (amount_in self.now) }
    {
        self.arbiter.as_slice().is_empty()
    }

    // Whether no record of a node was read.
    fn is_arbiter(&self) -> bool
        ensures { result ≡ is_arbiter (amount_in self.now) }
    {
        self.boots == 0 && self.replicas.is_empty()
    }

    fn booted(&mut self, instance: u32) -> Result<(), NotTaken>
        requires { IsTold self.old }
        ensures told { OnOk result (IsTold self.new) }
        ensures taken { Takes (is_next (amount_in self.old) (said.Boot instance))
            (with_record (amount_in self.old) (said.Boot instance)) (amount_in self.new) result }
    {
        if !self.is_node() || u64::from(instance) != u64::from(self.boots) + 1 {
            return Err(NotTaken::OutOfPlace);
        }
        self.boots = instance;
        self.replicas.drop_collected();
        Ok(())
    }

    // A record of the partition's replica.
    fn replicated(&mut self, partition: u16, item: Item<'_>) -> Result<(), NotTaken>
        requires told { IsTold self.old }
        requires sound { IsTrue (is_sound (recorded item)) }
        ensures told { OnOk result (IsTold self.new) }
        ensures taken { Takes (is_node (amount_in self.old) && is_row (recorded item.entry) (replica_of partition self.old.replicas))
            (record (amount_in self.old) { replicas = called partition (row_call (recorded item.entry)) self.old.replicas }) (amount_in self.new) result }
    {
        if !self.is_node() {
            return Err(NotTaken::OutOfPlace);
        }
        self.replicas.take(partition, item)?;
        Ok(())
    }

    fn accused(&mut self, victim: Who, first: Who) -> Result<(), NotTaken>
        requires { IsTold self.old }
        ensures told { OnOk result (IsTold self.new) }
        ensures taken { Takes (is_next (amount_in self.old) (said.AccusedBy victim first))
            (with_record (amount_in self.old) (said.AccusedBy victim first)) (amount_in self.new) result }
    {
        if !self.is_arbiter() || self.table.first_accuser(victim).is_some() {
            return Err(NotTaken::OutOfPlace);
        }
        self.table.accuse(victim, first)?;
        self.arbiter.push(Record::AccusedBy { victim, first })?;
        Ok(())
    }

    fn claimed(&mut self, victim: Who, round: u8, claimer: Who) -> Result<(), NotTaken>
        requires { IsTold self.old }
        ensures told { OnOk result (IsTold self.new) }
        ensures taken { Takes (is_next (amount_in self.old) (said.ClaimedBy victim round claimer))
            (with_record (amount_in self.old) (said.ClaimedBy victim round claimer)) (amount_in self.new) result }
    {
        if !self.is_arbiter()
            || self.table.first_accuser(victim).is_none()
            || self.table.first_claimer(victim, round).is_some()
        {
            return Err(NotTaken::OutOfPlace);
        }
        self.table.claim(victim, round, claimer)?;
        self.arbiter.push(Record::ClaimedBy {
            victim,
            round,
            claimer,
        })?;
        Ok(())
    }

    fn prepared(&mut self, partition: u16, epoch: Epoch, preparer: Who) -> Result<(), NotTaken>
        requires { IsTold self.old }
        ensures told { OnOk result (IsTold self.new) }
        ensures taken { Takes (is_next (amount_in self.old) (said.PreparedBy partition epoch preparer))
            (with_record (amount_in self.old) (said.PreparedBy partition epoch preparer)) (amount_in self.new) result }
    {
        if !self.is_arbiter() || !is_above(self.registers.prepared(partition), epoch) {
            return Err(NotTaken::OutOfPlace);
        }
        self.registers.prepare(partition, epoch, preparer)?;
        self.arbiter.push(Record::PreparedBy {
            partition,
            epoch,
            preparer,
        })?;
        Ok(())
    }

    fn voted(&mut self, config: Config) -> Result<(), NotTaken>
        requires { IsTold self.old }
        ensures told { OnOk result (IsTold self.new) }
        ensures taken { Takes (is_next (amount_in self.old) (said.VotedFor config))
            (with_record (amount_in self.old) (said.VotedFor config)) (amount_in self.new) result }
    {
        if !self.is_arbiter()
            || self
                .registers
                .vote_of(config.partition, config.epoch)
                .is_some()
        {
            return Err(NotTaken::OutOfPlace);
        }
        self.registers.vote(&config)?;
        self.arbiter.push(Record::VotedFor { config })?;
        Ok(())
    }

    fn done(&mut self, config: Config) -> Result<(), NotTaken>
        requires { IsTold self.old }
        ensures told { OnOk result (IsTold self.new) }
        ensures taken { Takes (is_next (amount_in self.old) (said.DoneFor config))
            (with_record (amount_in self.old) (said.DoneFor config)) (amount_in self.new) result }
    {
        if !self.is_arbiter() || !is_newer(config.epoch, self.registers.done(config.partition)) {
            return Err(NotTaken::OutOfPlace);
        }
        self.registers.finish(&config)?;
        self.arbiter.push(Record::DoneFor { config })?;
        Ok(())
    }

    fn take_item(&mut self, item: Item<'_>) -> Result<(), NotTaken>
        requires told { IsTold self.old }
        requires sound { IsTrue (is_sound (recorded item)) }
        ensures told { OnOk result (IsTold self.new) }
        ensures taken { Takes (is_next (amount_in self.old) (recorded item.entry))
            (with_record (amount_in self.old) (recorded item.entry)) (amount_in self.new) result }
    {
        match item {
            Item::Boot { instance } => self.booted(instance),
            Item::AccusedBy { victim, first } => self.accused(victim, first),
            Item::PreparedBy {
                partition,
                epoch,
                preparer,
            } => self.prepared(partition, epoch, preparer),
            Item::VotedFor { config } => self.voted(config),
            Item::DoneFor { config } => self.done(config),
            Item::PromisedAt { partition, .. } => self.replicated(partition, item),
            Item::Wrote { partition, .. } => self.replicated(partition, item),
            Item::Incoming { partition, .. } => self.replicated(partition, item),
            Item::AdoptedAt { partition, .. } => self.replicated(partition, item),
            Item::ClaimedBy {
                victim,
                round,
                claimer,
            } => self.claimed(victim, round, claimer),
        }
    }

    /// Takes the record that the bytes are, if they are one that can come next. After a refusal there is no reading on.
    pub fn take(&mut self, bytes: &[u8]) -> Result<(), NotTaken>
        requires { IsTold self.old }
        ensures told { OnOk result (IsTold self.new) }
        ensures took { Took (amount_in self.old) bytes.now (amount_in self.new) result }
    {
        let Ok(item) = item_of(bytes) else {
            return Err(NotTaken::OutOfPlace);
        };
        self.take_item(item)
    }

    /// What all the records amount to.
    pub fn finish(self) -> Result<Kept, OutOfMemory>
        ensures { IfOk result (λ kept. kept
            ≡ record { boots = self.boots; arbiter = self.arbiter; replicas = values_of self.replicas }) }
    {
        let replicas = self.replicas.into_vec()?;
        Ok(Kept {
            boots: self.boots,
            arbiter: self.arbiter,
            replicas: Replicas::new(replicas),
        })
    }
}
