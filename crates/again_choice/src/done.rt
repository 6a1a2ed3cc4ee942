ghost use Rattle.std.specs.Prelude.{◌≡◌, ◌≤◌, [], IfOk, OnOk, fold, length, map};
ghost use Rattle.again_choice.specs.Dones.{below, declared_of, done_as, done_of};
ghost use Rattle.again_choice.specs.Dones.{done_with_folder, done_with_record, newer, with_done};

use crate::folder::Found;
use fabric_terms::{OutOfMemory, Record};
use ring_points::{Config, Epoch};
use service_file::{Declared, MAX_DECLARED};
use std::alloc::{AllocError, Global};

/// A configuration that an arbitrator keeps as done: its partition, its epoch, and how many members it has.
#[derive(Clone, Copy, Debug, PartialEq, Eq)]
pub struct Done {
    pub partition: u16,
    pub epoch: Epoch,
    pub members: u8,
}

fn newer(first: Done, second: Done) -> Done
    ensures { result ≡ newer first second }
{
    if first.epoch < second.epoch {
        second
    } else {
        first
    }
}

/// How many of these are of a lesser partition.
fn below(partition: u16, list: &[Done]) -> usize
    ensures count { result ≡ below partition list.now }
    ensures within { result ≤ length list.now }
{
    list.iter()
        .take_while(|done| done.partition < partition)
        .count()
}

/// Adds what is done to a list that rises by partition. Of a partition the newer stays. A list that is longer than a line
/// declares stays as it is.
fn push_done(list: &mut Vec<Done>, done: Done) -> Result<(), OutOfMemory>
    ensures { OnOk result (list.new.items ≡ with_done list.old.items done) }
{
    if list.len() > MAX_DECLARED {
        return Ok(());
    }
    let place = below(done.partition, list.as_slice());
    match list.get(place) {
        Some(there) if there.partition == done.partition => {
            let kept = newer(*there, done);
            list[place] = kept;
        }
        _ => list.insert(place, done)?,
    }
    Ok(())
}

fn done_as(config: &Config) -> Done
    ensures { result ≡ done_as config.now }
{
    Done {
        partition: config.partition,
        epoch: config.epoch,
        members: config.members.as_slice().len() as u8,
    }
}

fn push_records(list: &mut Vec<Done>, records: &[Record]) -> Result<(), OutOfMemory>
    ensures { OnOk result (list.new.items ≡ fold done_with_record list.old.items records.now) }
{
    for record in records {
        if let Record::DoneFor { config } = record {
            push_done(list, done_as(config))?;
        }
    }
    Ok(())
}

fn push_folders(list: &mut Vec<Done>, folders: &[Found]) -> Result<(), OutOfMemory>
    ensures { OnOk result (list.new.items ≡ fold done_with_folder list.old.items folders.now) }
{
    for found in folders {
        if let Found::Read(folder) = found {
            push_records(list, folder.kept.arbiter.as_slice())?;
        }
    }
    Ok(())
}

/// What the arbitrators keep as done, rising by partition; one more than a line declares, if they keep more.
pub fn done_of(alloc: Global, folders: &[Found]) -> Result<Vec<Done>, OutOfMemory>
    ensures { IfOk result (λ list. list.items ≡ done_of folders.now) }
{
    let mut list = Vec::new(alloc);
    push_folders(&mut list, folders)?;
    Ok(list)
}

/// The same partitions as a line declares them.
pub fn declared_of(alloc: Global, list: &[Done]) -> Result<Vec<Declared>, AllocError>
    ensures { IfOk result (λ declared. declared.items ≡ map declared_of list.now) }
{
    list.iter()
        .map(|done| Declared {
            partition: done.partition,
            replicas: done.members,
        })
        .collect(alloc)
}
