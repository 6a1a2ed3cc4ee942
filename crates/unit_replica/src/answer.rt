ghost use Rattle.std.specs.Prelude.{◌≡◌, ◌≤◌, ◌∷◌, [], IfOk, OnErr, length, true};
ghost use Rattle.fabric_terms.specs.declared.report.Report.TheVariants.{NameList};
ghost use Rattle.unit_rules.specs.Answers.{names_commanded, ready, resolve_commanded, resolved};
ghost use Rattle.unit_rules.specs.Deeds.{Tell};
ghost use Rattle.unit_rules.specs.Progress.{progress_of};
ghost use Rattle.unit_replica.specs.Memory.{is_ready};
ghost use Rattle.unit_desk.specs.UnitEffects.{Does, HasRoomFor, Left};

use crate::replica_state::ReplicaState;
use crate::send::takes_writes;
use crate::write::refuse;
use fabric_terms::{NameText, NameTexts, NameValue, OutOfMemory, Reason, Report, Verb};
use ring_points::Interval;
use std::alloc::Global;
use unit_desk::UnitEffects;

/// How many entries of its log a primary has reported committed since its activation, or why it answers no question.
fn ready(state: &ReplicaState) -> Result<u32, Reason>
    ensures { result ≡ ready (progress_of state.now) }
{
    if !takes_writes(&state.replica) {
        return Err(Reason::NotPrimary);
    }
    let Some(progress) = &state.progress else {
        return Err(Reason::NotPrimary);
    };
    let reported = progress.reported();
    if reported == 0 {
        Err(Reason::NotReady)
    } else {
        Ok(reported)
    }
}

/// Reports the value of a name, or that the name has none.
fn tell_found(partition: u16, name: &NameText, found: Option<NameValue>, effects: &mut UnitEffects)
    requires { HasRoomFor 0 0 1 effects.old }
    ensures left { Left (Tell (resolved partition name.now found) ∷ []) effects.old effects.new }
    ensures few { length effects.new.out ≤ length effects.old.out }
{
    match found {
        None => effects
            .told
            .push(Report::Unresolved(partition, name.copy())),
        Some(value) => effects
            .told
            .push(Report::Resolved(partition, name.copy(), value)),
    }
}

/// Reports the names of a range.
fn tell_names(partition: u16, names: NameTexts, effects: &mut UnitEffects)
    requires { HasRoomFor 0 0 1 effects.old }
    ensures left { Left (Tell (NameList partition names) ∷ []) effects.old effects.new }
    ensures few { length effects.new.out ≤ length effects.old.out }
{
    effects.told.push(Report::NameList(partition, names));
}

/// Resolve: a primary reports the value of a name after the entries that it has reported committed. It refuses if it
/// takes no writes, and before the first commit since its activation. It is an error if memory is short for an answer,
/// and then nothing changes.
#[tactic(auto, unfolding(unit_rules::specs::Answers::resolve_commanded))]
pub(crate) fn resolve_commanded(
    alloc: Global,
    name: &NameText,
    state: &mut ReplicaState,
    effects: &mut UnitEffects,
) -> Result<(), OutOfMemory>
    requires { HasRoomFor 0 0 1 effects.old }
    ensures does { IfOk result (λ _. Does (resolve_commanded name.now state.old) state.new effects.old effects.new) }
    ensures few { length effects.new.out ≤ length effects.old.out }
    ensures refused { OnErr result ((state.new ≡ state.old) × (effects.new ≡ effects.old)) }
    ensures memory { OnErr result (is_ready state.old ≡ true) }
{
    match ready(state) {
        Err(reason) => {
            refuse(Verb::Resolve, reason, effects);
            Ok(())
        }
        Ok(count) => {
            let found = state
                .replica
                .resolve(alloc, count as usize, name.as_slice())?;
            tell_found(state.replica.partition(), name, found, effects);
            Ok(())
        }
    }
}

/// Names: a primary reports the first names with a point in the range, after the entries that it has reported
/// committed. It is refused, or an error, where `resolve_commanded` is.
#[tactic(auto, unfolding(unit_rules::specs::Answers::names_commanded))]
pub(crate) fn names_commanded(
    alloc: Global,
    range: &Interval,
    state: &mut ReplicaState,
    effects: &mut UnitEffects,
) -> Result<(), OutOfMemory>
    requires { HasRoomFor 0 0 1 effects.old }
    ensures does { IfOk result (λ _. Does (names_commanded range.now state.old) state.new effects.old effects.new) }
    ensures few { length effects.new.out ≤ length effects.old.out }
    ensures refused { OnErr result ((state.new ≡ state.old) × (effects.new ≡ effects.old)) }
    ensures memory { OnErr result (is_ready state.old ≡ true) }
{
    match ready(state) {
        Err(reason) => {
            refuse(Verb::Names, reason, effects);
            Ok(())
        }
        Ok(count) => {
            let names = state.replica.list(alloc, count as usize, range)?;
            tell_names(state.replica.partition(), names, effects);
            Ok(())
        }
    }
}
