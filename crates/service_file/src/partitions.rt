ghost use Rattle.std.specs.Prelude.{◌≡◌, is_some, IfOk};
ghost use Rattle.std.specs.List.{filter_map, list_all};
ghost use Rattle.serde_json.specs.View.{view};
ghost use Rattle.service_file.specs.Checks.{Reads};
ghost use Rattle.service_file.specs.Entries.{declared_in, is_object, partition_in};
ghost use Rattle.service_file.specs.Entries.{partitions_of, replicas_in};

use crate::entries::read_list;
use crate::error::ServiceError;
use crate::field::ServiceField;
use crate::limits::MAX_DECLARED;
use crate::numbers::{are_apart, number_in};
use crate::settings::{Declared, DeclaredList};
use ring_points::{MAX_MEMBERS, MAX_PARTITIONS};
use serde_json::Value;
use std::alloc::{AllocError, Global};

#[tactic(auto, unfolding(crate::specs::Entries::partition_in))]
fn partition_in(entry: &Value) -> Option<u16>
    ensures { result ≡ partition_in (view entry.now) }
{
    let value = entry.get(ServiceField::Partition.words())?;
    let number = number_in(0, MAX_PARTITIONS as u64 - 1, value)?;
    Some(number as u16)
}

#[tactic(auto, unfolding(crate::specs::Entries::replicas_in))]
fn replicas_in(entry: &Value) -> Option<u8>
    ensures { result ≡ replicas_in (view entry.now) }
{
    let value = entry.get(ServiceField::Replicas.words())?;
    let number = number_in(1, MAX_MEMBERS as u64, value)?;
    Some(number as u8)
}

#[tactic(auto, unfolding(crate::specs::Entries::declared_in))]
fn declared_in(entry: &Value) -> Option<Declared>
    ensures { result ≡ declared_in (view entry.now) }
{
    let partition = partition_in(entry)?;
    let replicas = replicas_in(entry)?;
    Some(Declared {
        partition,
        replicas,
    })
}

fn are_objects(entries: &[Value]) -> bool
    ensures { result ≡ list_all (λ v. is_object (view v)) entries.now }
{
    entries.iter().all(|entry| entry.is_object())
}

/// The partitions of the entries that have one.
fn collect_partitions(alloc: Global, entries: &[Value]) -> Result<Vec<u16>, AllocError>
    ensures { IfOk result (λ numbers. numbers.items ≡ filter_map (λ v. partition_in (view v)) entries.now) }
{
    entries
        .iter()
        .filter_map(|entry| partition_in(entry))
        .collect(alloc)
}

fn are_numbered(entries: &[Value]) -> bool
    ensures { result ≡ list_all (λ v. is_some (partition_in (view v))) entries.now }
{
    entries.iter().all(|entry| partition_in(entry).is_some())
}

fn are_counted(entries: &[Value]) -> bool
    ensures { result ≡ list_all (λ v. is_some (replicas_in (view v))) entries.now }
{
    entries.iter().all(|entry| replicas_in(entry).is_some())
}

fn collect_declared(alloc: Global, entries: &[Value]) -> Result<Vec<Declared>, AllocError>
    ensures { IfOk result (λ list. list.items ≡ filter_map (λ v. declared_in (view v)) entries.now) }
{
    entries
        .iter()
        .filter_map(|entry| declared_in(entry))
        .collect(alloc)
}

/// The declared partitions: a list of objects, each partition once, and then the fields of each.
#[tactic(auto, using(crate::proofs::Views::views), unfolding(crate::specs::Entries::partitions_of))]
pub fn read_partitions(alloc: Global, object: &Value) -> Result<DeclaredList, ServiceError>
    ensures { Reads (partitions_of (view object.now)) result }
{
    let entries = read_list(object, ServiceField::Partitions, MAX_DECLARED)?;
    if !are_objects(entries) {
        return Err(ServiceError::Bad(ServiceField::Partitions));
    }
    let numbers = collect_partitions(alloc, entries)?;
    if !are_apart(numbers.as_slice()) {
        return Err(ServiceError::Bad(ServiceField::Partitions));
    }
    if !are_numbered(entries) {
        return Err(ServiceError::Bad(ServiceField::Partition));
    }
    if !are_counted(entries) {
        return Err(ServiceError::Bad(ServiceField::Replicas));
    }
    Ok(DeclaredList::new(collect_declared(alloc, entries)?))
}
