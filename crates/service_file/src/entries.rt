ghost use Rattle.std.specs.Prelude.{◌≡◌, map, is_some, IfOk};
ghost use Rattle.std.specs.List.{filter_map, list_all};
ghost use Rattle.serde_json.specs.View.{view};
ghost use Rattle.service_file.specs.Checks.{Reads, ReadsAs};
ghost use Rattle.service_file.specs.Entries.{again_of, configured_in, join_of, list_of};

use crate::error::ServiceError;
use crate::field::ServiceField;
use crate::numbers::{are_apart, configured_in, number_in};
use crate::settings::{Again, Joins};
use fabric_terms::FabricConfig;
use ring_points::{MAX_COUNTER, MAX_NODES};
use serde_json::Value;
use std::alloc::{AllocError, Global};

/// The entries of a field that is a list of at most so many, or none where it is absent.
#[tactic(auto, using(crate::proofs::Views::views), unfolding(crate::specs::Entries::list_of))]
pub fn read_list(object: &Value, field: ServiceField, most: usize) -> Result<&[Value], ServiceError>
    ensures { ReadsAs (λ values. map view values.now) (list_of field most (view object.now)) result }
{
    let Some(value) = object.get(field.words()) else {
        return Ok(&[]);
    };
    let list = value.as_array().ok_or(ServiceError::Bad(field))?;
    if list.len() > most {
        return Err(ServiceError::Bad(field));
    }
    Ok(list.as_slice())
}

fn are_configured(config: &FabricConfig, entries: &[Value]) -> bool
    ensures { result ≡ list_all (λ v. is_some (configured_in config.now (view v))) entries.now }
{
    entries
        .iter()
        .all(|entry| configured_in(config, entry).is_some())
}

fn collect_nodes(
    alloc: Global,
    config: &FabricConfig,
    entries: &[Value],
) -> Result<Vec<u16>, AllocError>
    ensures { IfOk result (λ nodes. nodes.items ≡ filter_map (λ v. configured_in config.now (view v)) entries.now) }
{
    entries
        .iter()
        .filter_map(|entry| configured_in(config, entry))
        .collect(alloc)
}

/// Configured nodes, each once.
#[tactic(auto, using(crate::proofs::Views::views), unfolding(crate::specs::Entries::join_of))]
pub fn read_join(
    alloc: Global,
    config: &FabricConfig,
    object: &Value,
) -> Result<Joins, ServiceError>
    ensures { Reads (join_of config.now (view object.now)) result }
{
    let entries = read_list(object, ServiceField::Join, MAX_NODES)?;
    if !are_configured(config, entries) {
        return Err(ServiceError::Bad(ServiceField::Join));
    }
    let nodes = collect_nodes(alloc, config, entries)?;
    if !are_apart(nodes.as_slice()) {
        return Err(ServiceError::Bad(ServiceField::Join));
    }
    Ok(Joins::new(nodes))
}

/// The instance that begins again: an object with both fields.
#[tactic(auto, unfolding(crate::specs::Entries::again_of))]
pub fn read_again(config: &FabricConfig, object: &Value) -> Result<Option<Again>, ServiceError>
    ensures { result ≡ again_of config.now (view object.now) }
{
    let Some(value) = object.get(ServiceField::Again.words()) else {
        return Ok(None);
    };
    let absent = ServiceError::Bad(ServiceField::Again);
    let node_value = value.get(ServiceField::Node.words()).ok_or(absent)?;
    let instance_value = value.get(ServiceField::Instance.words()).ok_or(absent)?;
    let node = configured_in(config, node_value).ok_or(ServiceError::Bad(ServiceField::Node))?;
    let instance = number_in(2, MAX_COUNTER, instance_value).ok_or(ServiceError::Bad(
        ServiceField::Instance,
    ))?;
    Ok(Some(Again {
        node,
        instance: instance as u32,
    }))
}
