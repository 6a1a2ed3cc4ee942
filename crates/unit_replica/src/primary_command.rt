ghost use Rattle.std.specs.Prelude.{◌≡◌, ◌≤◌, ◌+◌, IfOk, OnErr, length, true};
ghost use Rattle.unit_desk.specs.UnitEffects.{Does, HasRoom};
ghost use Rattle.unit_replica.specs.PrimaryCommands.{commanded, most_sent, verb_of, wants_memory};

use crate::answer::{names_commanded, resolve_commanded};
use crate::replica_state::ReplicaState;
use crate::write::write_commanded;
use fabric_terms::{NameText, OutOfMemory, Payload, Verb};
use ring_points::Interval;
use std::alloc::Global;
use unit_desk::UnitEffects;

/// A command to the primary of a partition.
#[derive(Clone, Copy)]
pub(crate) enum PrimaryCommand<'a> {
    /// The primary adds an entry of this text.
    Write(&'a Payload),
    /// The primary reports the value of this name.
    Resolve(&'a NameText),
    /// The primary reports the first names with a point in this range.
    Names(&'a Interval),
}

/// The verb of the report that refuses the command.
pub(crate) fn verb_of(command: PrimaryCommand) -> Verb
    ensures { result ≡ verb_of command.entry }
{
    match command {
        PrimaryCommand::Write(_) => Verb::Write,
        PrimaryCommand::Resolve(_) => Verb::Resolve,
        PrimaryCommand::Names(_) => Verb::Names,
    }
}

/// The row of the command at a replica. It is an error if memory is short for a new entry or an answer, and then
/// nothing changes.
pub(crate) fn commanded(
    alloc: Global,
    command: PrimaryCommand,
    state: &mut ReplicaState,
    effects: &mut UnitEffects,
) -> Result<(), OutOfMemory>
    requires { HasRoom effects.old }
    ensures does { IfOk result (λ _. Does (commanded command.entry state.old) state.new effects.old effects.new) }
    ensures few { length effects.new.out ≤ length effects.old.out + most_sent command.entry }
    ensures refused { OnErr result ((state.new ≡ state.old) × (effects.new ≡ effects.old)) }
    ensures memory { OnErr result (wants_memory command.entry state.old ≡ true) }
{
    match command {
        PrimaryCommand::Write(text) => write_commanded(text, state, effects),
        PrimaryCommand::Resolve(name) => resolve_commanded(alloc, name, state, effects),
        PrimaryCommand::Names(range) => names_commanded(alloc, range, state, effects),
    }
}
