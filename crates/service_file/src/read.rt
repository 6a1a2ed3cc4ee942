ghost use Rattle.std.specs.Prelude.{◌≡◌, ◌<◌, length, IfOk, IsErrOf};
ghost use Rattle.serde_json.specs.View.{view};
ghost use Rattle.fabric_terms.specs.Sound.{IsSound};
ghost use Rattle.service_file.specs.Sound.{IsSoundService};
ghost use Rattle.service_file.specs.Checks.{Reads, ReadsAs};
ghost use Rattle.service_file.specs.Settings.{choice_named, choice_or_some, defaults, document_of, service_of};
ghost use Rattle.service_file.specs.Settings.{settings_of, ticks_or_lease};
ghost use Rattle.service_file.specs.Fields.{given};

use crate::entries::{read_again, read_join};
use crate::error::ServiceError;
use crate::field::ServiceField;
use crate::keys::has_known_keys;
use crate::numbers::number_in;
use crate::partitions::read_partitions;
use crate::settings::{DeclaredList, Joins, LineChoice, ServiceSettings};
use fabric_terms::FabricConfig;
use ring_points::MAX_LEASE;
use serde_json::Value;
use std::alloc::Global;

/// The JSON object that the bytes spell.
#[tactic(auto, using(crate::proofs::Texts::documents))]
fn read_document(alloc: Global, line: &[u8]) -> Result<Value, ServiceError>
    ensures { ReadsAs view (document_of line.now) result }
{
    match Value::from_slice(alloc, line) {
        Ok(value) if value.is_object() => Ok(value),
        Ok(_) => Err(ServiceError::Bad(ServiceField::Json)),
        Err(error) if error.is_memory() => Err(ServiceError::OutOfMemory),
        Err(_) => Err(ServiceError::Bad(ServiceField::Json)),
    }
}

/// After how many ticks a partition is healed: the lease where the object does not say.
fn read_heal_after(config: &FabricConfig, object: &Value) -> Result<u64, ServiceError>
    ensures { result ≡ ticks_or_lease config.now (given ServiceField.HealAfter (view object.now)) }
{
    match object.get(ServiceField::HealAfter.words()) {
        None => Ok(config.lease),
        Some(value) => {
            number_in(1, MAX_LEASE, value).ok_or(ServiceError::Bad(ServiceField::HealAfter))
        }
    }
}

fn choice_named(text: &str) -> Option<LineChoice>
    ensures { result ≡ choice_named text.now }
{
    match text {
        "some" => Some(LineChoice::SomeLines),
        "all" => Some(LineChoice::AllLines),
        _ => None,
    }
}

/// Which reports the log has.
fn read_lines(object: &Value) -> Result<LineChoice, ServiceError>
    ensures { result ≡ choice_or_some (given ServiceField.Lines (view object.now)) }
{
    match object.get(ServiceField::Lines.words()) {
        None => Ok(LineChoice::SomeLines),
        Some(value) => value
            .as_str()
            .and_then(choice_named)
            .ok_or(ServiceError::Bad(ServiceField::Lines)),
    }
}

/// The checks of an object, in their order.
#[tactic(auto, unfolding(crate::specs::Settings::settings_of))]
fn read_object(
    alloc: Global,
    config: &FabricConfig,
    object: &Value,
) -> Result<ServiceSettings, ServiceError>
    ensures { Reads (settings_of config.now (view object.now)) result }
{
    if !has_known_keys(object) {
        return Err(ServiceError::Bad(ServiceField::Unknown));
    }
    let join = read_join(alloc, config, object)?;
    let partitions = read_partitions(alloc, object)?;
    let heal_after = read_heal_after(config, object)?;
    let lines = read_lines(object)?;
    let again = read_again(config, object)?;
    Ok(ServiceSettings {
        join,
        partitions,
        heal_after,
        lines,
        again,
    })
}

/// The settings that an empty line has.
fn defaults(alloc: Global, config: &FabricConfig) -> ServiceSettings
    ensures { result ≡ defaults config.now }
{
    ServiceSettings {
        join: Joins::new(Vec::new(alloc)),
        partitions: DeclaredList::new(Vec::new(alloc)),
        heal_after: config.lease,
        lines: LineChoice::SomeLines,
        again: None,
    }
}

/// What the line says for this configuration, or the first check that it fails. An empty line gives each field its
/// default, and takes no memory; for another line want of memory may come in place of any answer.
#[tactic(auto, unfolding(crate::specs::Settings::service_of), using(crate::proofs::Soundness::answers))]
pub fn read_service(
    alloc: Global,
    config: &FabricConfig,
    line: &[u8],
) -> Result<ServiceSettings, ServiceError>
    ensures value { Reads (service_of config.now line.now) result }
    ensures sound { IsSound config.now → IfOk result (IsSoundService config.now) }
    ensures memory { IsErrOf result ServiceError.OutOfMemory → 0 < length line.now }
{
    if line.is_empty() {
        return Ok(defaults(alloc, config));
    }
    let document = read_document(alloc, line)?;
    read_object(alloc, config, &document)
}
