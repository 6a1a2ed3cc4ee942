ghost use Rattle.std.specs.Prelude.{◌≡◌, ◌≤◌, ◌+◌, [], None, IfOk, IsTrue, OnErr, length, map, true};
ghost use Rattle.std.specs.Option.{option_copied};
ghost use Rattle.fabric_lemmas.specs.Maps.{at};
ghost use Rattle.fabric_terms.specs.Messages.{is_sound_body};
ghost use Rattle.unit_desk.specs.UnitEffects.{Does, HasRoom};
ghost use Rattle.unit_rules.specs.Deeds.{still};
ghost use Rattle.unit_replica.specs.Memory.{grows, is_ready_at, stores};
ghost use Rattle.unit_replica.specs.PrimaryCommands.{command_at, most_sent, wants_memory_at};
ghost use Rattle.unit_replica.specs.Tables.{at_state, at_standing, frame_at, list_at, replica_at, resolve_at, row_of};
ghost use Rattle.unit_replica.specs.Tables.{write_at};

use crate::frame::row_of;
use crate::primary_command::{PrimaryCommand, commanded, verb_of};
use crate::progress::MAX_PEERS;
use crate::replica_state::ReplicaState;
use crate::write::refuse;
use fabric_terms::{Body, NameText, OutOfMemory, Payload, Reason};
use replica_core::Replica;
use ring_points::{Interval, MAX_PARTITIONS, Who};
use std::alloc::{AllocError, Global};
use std::collections::BTreeMap;
use std::marker::Model;
use unit_desk::UnitEffects;

/// The replicas of a node. Contracts see a map from partitions, as a list that rises by partition.
#[derive(Drop)]
pub struct ReplicaStates {
    pub(crate) alloc: Global,
    pub(crate) map: BTreeMap<u16, ReplicaState>,
}

impl Model for ReplicaStates {
    ghost use Rattle.unit_replica.specs.Tables.{IsTable, ReplicaStates};

    ghost Value = { ReplicaStates };

    ghost view = { λ s. s.map.entries };

    ghost invariant = { λ s. IsTable s.map.entries };
}

/// The partitions of a map, rising.
fn partitions_of(
    alloc: Global,
    states: &BTreeMap<u16, ReplicaState>,
) -> Result<Vec<u16>, AllocError>
    ensures { IfOk result (λ found. found.items ≡ map (λ e. e.0) states.now.entries) }
{
    let mut found = Vec::new(alloc);
    for partition in states.keys() {
        found.push(*partition)?;
    }
    Ok(found)
}

impl ReplicaStates {
    /// No replicas. The map and the logs grow by this allocator.
    pub fn new(alloc: Global) -> Self
        ensures { result ≡ [] }
    {
        ReplicaStates {
            alloc,
            map: BTreeMap::new(alloc),
        }
    }

    /// How many replicas there are.
    pub fn count(&self) -> usize
        ensures count { result ≡ length self.now }
        ensures few { result ≤ MAX_PARTITIONS }
    {
        self.map.len()
    }

    /// The partitions of which the node has a replica, rising. It is an error if memory for them is short.
    pub fn partitions(&self, alloc: Global) -> Result<Vec<u16>, OutOfMemory>
        ensures { IfOk result (λ found. found.items ≡ map (λ e. e.0) self.now) }
    {
        Ok(partitions_of(alloc, &self.map)?)
    }

    /// The partition's replica, if there is one.
    pub fn replica(&self, partition: u16) -> Option<&Replica>
        ensures { option_copied result ≡ replica_at partition self.now }
    {
        match self.map.get(&partition) {
            Some(state) => Some(state.replica.replica()),
            None => None,
        }
    }

    /// The row of a frame at the partition's replica, if the node has one. Before it, some of what the replica let go
    /// is freed.
    fn at_standing(
        &mut self,
        me: u16,
        from: Who,
        partition: u16,
        body: &Body,
        effects: &mut UnitEffects,
    ) -> Result<(), OutOfMemory>
        requires sound { IsTrue (is_sound_body body.now) }
        requires room { HasRoom effects.old }
        ensures does { IfOk result (λ _. Does
            (at_standing partition (row_of me from body.now) (still self.old) self.old)
            self.new effects.old effects.new) }
        ensures few { length effects.new.out ≤ length effects.old.out + 1 }
        ensures refused { OnErr result ((self.new ≡ self.old) × (effects.new ≡ effects.old)) }
        ensures memory { OnErr result (grows self.old
            (at_standing partition (row_of me from body.now) (still self.old) self.old) ≡ true) }
    {
        let Some(state) = self.map.get_mut(&partition) else {
            return Ok(());
        };
        state.free_released();
        row_of(me, from, body, state, effects)
    }

    /// The row of a frame at a new replica of the partition.
    #[tactic(auto, using(crate::proofs::Stored::state_made))]
    fn at_first(
        &mut self,
        me: u16,
        from: Who,
        partition: u16,
        body: &Body,
        effects: &mut UnitEffects,
    ) -> Result<(), OutOfMemory>
        requires sound { IsTrue (is_sound_body body.now) }
        requires room { HasRoom effects.old }
        requires none { at partition self.old ≡ None }
        ensures does { IfOk result (λ _. Does (at_state partition (row_of me from body.now) self.old)
            self.new effects.old effects.new) }
        ensures few { length effects.new.out ≤ length effects.old.out + 1 }
        ensures refused { OnErr result ((self.new ≡ self.old) × (effects.new ≡ effects.old)) }
        ensures memory { OnErr result (grows self.old (at_state partition (row_of me from body.now) self.old) ≡ true) }
    {
        // This never happens: a map with all partitions has this one too.
        if self.map.len() >= MAX_PARTITIONS {
            return Err(OutOfMemory);
        }
        let state = ReplicaState::new(self.alloc, partition);
        self.map.insert(partition, state)?;
        match self.at_standing(me, from, partition, body, effects) {
            Ok(()) => Ok(()),
            Err(_) => {
                self.map.remove(&partition);
                Err(OutOfMemory)
            }
        }
    }

    /// The row of a frame at the partition's replica. It is made if the node has none.
    fn at_state(
        &mut self,
        me: u16,
        from: Who,
        partition: u16,
        body: &Body,
        effects: &mut UnitEffects,
    ) -> Result<(), OutOfMemory>
        requires sound { IsTrue (is_sound_body body.now) }
        requires room { HasRoom effects.old }
        ensures does { IfOk result (λ _. Does (at_state partition (row_of me from body.now) self.old)
            self.new effects.old effects.new) }
        ensures few { length effects.new.out ≤ length effects.old.out + 1 }
        ensures refused { OnErr result ((self.new ≡ self.old) × (effects.new ≡ effects.old)) }
        ensures memory { OnErr result (grows self.old (at_state partition (row_of me from body.now) self.old) ≡ true) }
    {
        if self.map.contains_key(&partition) {
            self.at_standing(me, from, partition, body, effects)
        } else {
            self.at_first(me, from, partition, body, effects)
        }
    }

    /// A frame to the replica of its partition. If the node has none, Promise, Sync, Activate and Append make it, and
    /// other frames do nothing. It is an error if memory is short for a new entry or a new replica, and then nothing
    /// changes. No other frame needs memory.
    pub fn frame_received(
        &mut self,
        me: u16,
        from: Who,
        body: &Body,
        effects: &mut UnitEffects,
    ) -> Result<(), OutOfMemory>
        requires sound { IsTrue (is_sound_body body.now) }
        requires room { HasRoom effects.old }
        ensures does { IfOk result (λ _. Does (frame_at me from body.now self.old) self.new effects.old effects.new) }
        ensures few { length effects.new.out ≤ length effects.old.out + 1 }
        ensures refused { OnErr result ((self.new ≡ self.old) × (effects.new ≡ effects.old)) }
        ensures memory { OnErr result (grows self.old (frame_at me from body.now self.old) ≡ true) }
    {
        match body {
            Body::Promise { partition, .. }
            | Body::Sync { partition, .. }
            | Body::Append { partition, .. } => self.at_state(me, from, *partition, body, effects),
            Body::Activate { config } => self.at_state(me, from, config.partition, body, effects),
            Body::Fetch { partition, .. }
            | Body::Piece { partition, .. }
            | Body::Appended { partition, .. } => {
                self.at_standing(me, from, *partition, body, effects)
            }
            _ => Ok(()),
        }
    }

    /// The row of a command at the partition's replica. The command is refused if the node has none. Before it, some of
    /// what the replica let go is freed.
    fn command(
        &mut self,
        partition: u16,
        command: PrimaryCommand,
        effects: &mut UnitEffects,
    ) -> Result<(), OutOfMemory>
        requires { HasRoom effects.old }
        ensures does { IfOk result (λ _. Does (command_at partition command.entry self.old)
            self.new effects.old effects.new) }
        ensures few { length effects.new.out ≤ length effects.old.out + most_sent command.entry }
        ensures refused { OnErr result ((self.new ≡ self.old) × (effects.new ≡ effects.old)) }
        ensures memory { OnErr result (wants_memory_at partition command.entry self.old ≡ true) }
    {
        let Some(state) = self.map.get_mut(&partition) else {
            refuse(verb_of(command), Reason::NotPrimary, effects);
            return Ok(());
        };
        state.free_released();
        commanded(self.alloc, command, state, effects)
    }

    /// Write: the partition's primary adds an entry. It is refused if the node has no replica of the partition, if the
    /// replica takes no writes, and if its log is full. It is an error if memory is short for a new entry, and then
    /// nothing changes.
    pub fn write(
        &mut self,
        partition: u16,
        text: &Payload,
        effects: &mut UnitEffects,
    ) -> Result<(), OutOfMemory>
        requires { HasRoom effects.old }
        ensures does { IfOk result (λ _. Does (write_at partition text.now self.old) self.new effects.old effects.new) }
        ensures few { length effects.new.out ≤ length effects.old.out + MAX_PEERS }
        ensures refused { OnErr result ((self.new ≡ self.old) × (effects.new ≡ effects.old)) }
        ensures memory { OnErr result (stores (write_at partition text.now self.old) ≡ true) }
    {
        self.command(partition, PrimaryCommand::Write(text), effects)
    }

    /// Resolve: the partition's primary reports the value of a name. It is refused if the node has no replica of the
    /// partition, and if that replica answers no questions. It is an error if memory is short for an answer, and then
    /// nothing changes.
    pub fn resolve(
        &mut self,
        partition: u16,
        name: &NameText,
        effects: &mut UnitEffects,
    ) -> Result<(), OutOfMemory>
        requires { HasRoom effects.old }
        ensures does { IfOk result (λ _. Does (resolve_at partition name.now self.old)
            self.new effects.old effects.new) }
        ensures few { length effects.new.out ≤ length effects.old.out }
        ensures refused { OnErr result ((self.new ≡ self.old) × (effects.new ≡ effects.old)) }
        ensures memory { OnErr result (is_ready_at partition self.old ≡ true) }
    {
        self.command(partition, PrimaryCommand::Resolve(name), effects)
    }

    /// Names: the partition's primary reports the first names with a point in the range. It is refused, or an error,
    /// where `resolve` is.
    pub fn list_names(
        &mut self,
        partition: u16,
        range: &Interval,
        effects: &mut UnitEffects,
    ) -> Result<(), OutOfMemory>
        requires { HasRoom effects.old }
        ensures does { IfOk result (λ _. Does (list_at partition range.now self.old) self.new effects.old effects.new) }
        ensures few { length effects.new.out ≤ length effects.old.out }
        ensures refused { OnErr result ((self.new ≡ self.old) × (effects.new ≡ effects.old)) }
        ensures memory { OnErr result (is_ready_at partition self.old ≡ true) }
    {
        self.command(partition, PrimaryCommand::Names(range), effects)
    }
}
