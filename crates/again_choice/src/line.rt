ghost use Rattle.std.specs.Prelude.{◌≡◌, ◌≢◌, ◌↔◌, Ok, IfErr, IfOk, IsTrue, string_bytes, map};
ghost use Rattle.serde_json.specs.Data.{array};
ghost use Rattle.serde_json.specs.View.{items_of, view};
ghost use Rattle.service_file.specs.Settings.{service_of};
ghost use Rattle.again_choice.specs.declared.refusal.AgainRefusal.TheVariants.{OutOfMemory, Unread};
ghost use Rattle.again_choice.specs.Choices.{settings_with};
ghost use Rattle.again_choice.specs.Lines.{again_data, choice_word, declared_data, line_data, line_text, whole};

use crate::choice::Choice;
use crate::refusal::AgainRefusal;
use fabric_terms::FabricConfig;
use serde_json::{Value, json};
use service_file::{Again, Declared, LineChoice, ServiceError, ServiceSettings, read_service};
use std::alloc::{AllocError, Global};

fn choice_word(lines: LineChoice) -> &'static str
    ensures { result.now ≡ choice_word lines }
{
    match lines {
        LineChoice::SomeLines => "some",
        LineChoice::AllLines => "all",
    }
}

fn joins(alloc: Global, nodes: &[u16]) -> Result<Value, AllocError>
    ensures { IfOk result (λ v. view v ≡ array (items_of (map whole nodes.now))) }
{
    let mut list = Vec::new(alloc);
    for node in nodes {
        list.push(Value::from(u64::from(*node)))?;
    }
    Ok(Value::Array(list))
}

fn declared(alloc: Global, entry: Declared) -> Result<Value, AllocError>
    ensures { IfOk result (λ v. view v ≡ declared_data entry) }
{
    let partition = u64::from(entry.partition);
    let replicas = u64::from(entry.replicas);
    json!(in alloc; {"partition": partition, "replicas": replicas})
}

fn partitions(alloc: Global, entries: &[Declared]) -> Result<Value, AllocError>
    ensures { IfOk result (λ v. view v ≡ array (items_of (map declared_data entries.now))) }
{
    let mut list = Vec::new(alloc);
    for entry in entries {
        list.push(declared(alloc, *entry)?)?;
    }
    Ok(Value::Array(list))
}

fn again(alloc: Global, again: Again) -> Result<Value, AllocError>
    ensures { IfOk result (λ v. view v ≡ again_data again) }
{
    let node = u64::from(again.node);
    let instance = u64::from(again.instance);
    json!(in alloc; {"instance": instance, "node": node})
}

fn value_of(alloc: Global, settings: &ServiceSettings, choice: &Choice) -> Result<Value, AllocError>
    ensures { IfOk result (λ v. view v ≡ line_data settings.now choice.now) }
{
    let again = again(alloc, choice.again)?;
    let heal_after = settings.heal_after;
    let join = joins(alloc, settings.join.as_slice())?;
    let lines = choice_word(settings.lines);
    let partitions = partitions(alloc, choice.partitions.as_slice())?;
    json!(in alloc; {"again": again, "heal_after": heal_after, "join": join, "lines": lines, "partitions": partitions})
}

#[tactic(auto, using(crate::proofs::Floats::no_float))]
fn text_of(alloc: Global, settings: &ServiceSettings, choice: &Choice) -> Result<String, AllocError>
    ensures { IfOk result (λ text. string_bytes text ≡ line_text settings.now choice.now) }
{
    value_of(alloc, settings, choice)?.to_string(alloc)
}

fn same_nodes(first: &[u16], second: &[u16]) -> bool
    ensures { IsTrue result ↔ (first.now ≡ second.now) }
{
    first == second
}

fn same_partitions(first: &[Declared], second: &[Declared]) -> bool
    ensures { IsTrue result ↔ (first.now ≡ second.now) }
{
    first == second
}

fn same_lines(first: LineChoice, second: LineChoice) -> bool
    ensures { IsTrue result ↔ (first ≡ second) }
{
    first == second
}

fn same_again(first: Option<Again>, second: Option<Again>) -> bool
    ensures { IsTrue result ↔ (first ≡ second) }
{
    first == second
}

fn are_same(first: &ServiceSettings, second: &ServiceSettings) -> bool
    ensures { IsTrue result ↔ (first.now ≡ second.now) }
{
    same_nodes(first.join.as_slice(), second.join.as_slice())
        && same_partitions(first.partitions.as_slice(), second.partitions.as_slice())
        && first.heal_after == second.heal_after
        && same_lines(first.lines, second.lines)
        && same_again(first.again, second.again)
}

fn settings_with(settings: ServiceSettings, choice: Choice) -> ServiceSettings
    ensures { result ≡ settings_with settings choice }
{
    ServiceSettings {
        join: settings.join,
        partitions: choice.partitions,
        heal_after: settings.heal_after,
        lines: settings.lines,
        again: Some(choice.again),
    }
}

/// The line 2 that keeps what the settings say but for the choice. `Unread` comes exactly if the reader of line 2 would
/// not read it as that.
pub fn line_of(
    alloc: Global,
    config: &FabricConfig,
    settings: ServiceSettings,
    choice: Choice,
) -> Result<String, AgainRefusal>
    ensures text { IfOk result (λ line. string_bytes line ≡ line_text settings choice) }
    ensures read { IfOk result (λ line. service_of config.now (line_text settings choice)
        ≡ Ok (settings_with settings choice)) }
    ensures refused { IfErr result (λ e. e ≢ OutOfMemory → e ≡ Unread) }
    ensures unread { IfErr result (λ e. e ≡ Unread →
        service_of config.now (line_text settings choice) ≢ Ok (settings_with settings choice)) }
{
    let line = text_of(alloc, &settings, &choice)?;
    let chosen = settings_with(settings, choice);
    match read_service(alloc, config, line.as_bytes()) {
        Ok(read) if are_same(&read, &chosen) => Ok(line),
        Err(ServiceError::OutOfMemory) => Err(AgainRefusal::OutOfMemory),
        _ => Err(AgainRefusal::Unread),
    }
}
