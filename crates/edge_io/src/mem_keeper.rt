ghost use Rattle.std.specs.Prelude.{◌≡◌, ◌≢◌, ◌∷◌, ◌++◌, [], Some, map, vec_items, IfOk, OnOk, OnErr, IsErr, IsErrOf};
ghost use Rattle.std.specs.Prelude.{IsTrue, ◌%◌};
ghost use Rattle.edge_io.specs.Edge.{HasCauseOf};
ghost use Rattle.edge_io.specs.Lists.{records_of, AddsRecord};
ghost use Rattle.edge_io.specs.Memory.{told_list};
ghost use Rattle.edge_io.specs.Plan.{next_fails, faults_after};

use crate::entries::place_of;
use crate::fault_plan::FaultPlan;
use crate::keeper::Keeper;
use crate::refusal::EdgeRefusal;
use std::alloc::{AllocError, Global};
use std::marker::Model;

/// Records in memory. It tells all: each actor's list, and which calls fail.
#[derive(Drop)]
pub struct MemKeeper {
    alloc: Global,
    lists: Vec<(u16, Vec<Vec<u8>>)>,
    faults: FaultPlan,
}

impl Model for MemKeeper {
    ghost use Rattle.std.specs.Prelude.{map};
    ghost use Rattle.edge_io.specs.Memory.{ToldKeeper, told_list};

    ghost Value = { ToldKeeper };

    ghost view = { λ a. record { lists = map told_list a.lists.items; faults = a.faults } };
}

impl MemKeeper {
    ghost use Rattle.edge_io.specs.Memory.{fresh_keeper};

    /// Keeps these lists of records, each with its actor, and fails at the calls of the listed numbers,
    /// from 1. A failing append keeps its record where the number is even.
    pub fn new(alloc: Global, lists: Vec<(u16, Vec<Vec<u8>>)>, fail: Vec<u64>) -> Self
        ensures { result ≡ fresh_keeper (map told_list lists.items) fail.items }
    {
        MemKeeper {
            alloc,
            lists,
            faults: FaultPlan::new(fail),
        }
    }
}

/// Adds a record at the end of a list. A refused call changes nothing.
fn push_record(list: &mut (u16, Vec<Vec<u8>>), new: Vec<u8>) -> Result<(), AllocError>
    ensures ok { OnOk result (told_list list.new ≡ (list.old.0, map vec_items list.old.1.items ++ new.items ∷ [])) }
    ensures err { OnErr result (told_list list.new ≡ told_list list.old) }
{
    list.1.push(new)?;
    Ok(())
}

/// The list of one record of the actor.
fn list_of(alloc: Global, actor: u16, new: Vec<u8>) -> Result<(u16, Vec<Vec<u8>>), AllocError>
    ensures { IfOk result (λ list. told_list list ≡ (actor, new.items ∷ [])) }
{
    let mut records = Vec::new(alloc);
    records.push(new)?;
    Ok((actor, records))
}

/// Adds a record at the end of an actor's list. A refused call changes nothing.
fn add_record(
    alloc: Global,
    lists: &mut Vec<(u16, Vec<Vec<u8>>)>,
    actor: u16,
    bytes: &[u8],
) -> Result<(), AllocError>
    ensures ok { OnOk result (AddsRecord actor bytes.now (map told_list lists.old.items)
        (map told_list lists.new.items)) }
    ensures err { OnErr result (map told_list lists.new.items ≡ map told_list lists.old.items) }
{
    let copy = Vec::from_slice(alloc, bytes)?;
    match place_of(lists, actor) {
        Some(place) => push_record(&mut lists[place], copy)?,
        None => lists.push(list_of(alloc, actor, copy)?)?,
    }
    Ok(())
}

/// The records of the actor's first list; none where it has no list.
fn records_at(lists: &[(u16, Vec<Vec<u8>>)], actor: u16) -> &[Vec<u8>]
    ensures { map vec_items result.now ≡ records_of actor (map told_list lists.now) }
{
    match place_of(lists, actor) {
        Some(place) => &lists[place].1,
        None => &[],
    }
}

fn copy_of(alloc: Global, records: &[Vec<u8>]) -> Result<Vec<Vec<u8>>, AllocError>
    ensures { IfOk result (λ copy. map vec_items copy.items ≡ map vec_items records.now) }
{
    let mut copy = Vec::new(alloc);
    for one in records {
        copy.push(Vec::from_slice(alloc, one)?)?;
    }
    Ok(copy)
}

impl Keeper for MemKeeper {
    ghost use Rattle.std.specs.Prelude.{Some};
    ghost use Rattle.edge_io.specs.Lists.{records_of};

    ghost kept = { λ k actor. Some (records_of actor k.lists) };

    ghost faults = { λ k. k.faults.faults };

    ghost plan = { λ k. Some k.faults.plan };

    fn records(&mut self, actor: u16) -> Result<Vec<Vec<u8>>, EdgeRefusal> {
        if self.faults.next_fails() {
            return Err(EdgeRefusal::Failed);
        }
        Ok(copy_of(self.alloc, records_at(&self.lists, actor))?)
    }

    fn append_synced(&mut self, actor: u16, bytes: &[u8]) -> Result<(), EdgeRefusal>
        ensures ok { OnOk result (AddsRecord actor bytes.now self.old.lists self.new.lists) }
        ensures out_of_memory { IsErrOf result EdgeRefusal.OutOfMemory → self.new.lists ≡ self.old.lists }
        ensures cause { HasCauseOf EdgeRefusal.Failed self.old.faults.faults self.new.faults.faults result }
        ensures faults { self.new.faults ≡ faults_after self.old.faults }
        ensures failed { IsErrOf result EdgeRefusal.Failed → IsTrue (next_fails self.old.faults.plan) }
        ensures refused { IsTrue (next_fails self.old.faults.plan) → IsErr result }

        // A failing append keeps its record where the call's number is even.
        ensures even { IsErrOf result EdgeRefusal.Failed → self.new.faults.plan.calls % 2 ≡ 0 →
            AddsRecord actor bytes.now self.old.lists self.new.lists }
        ensures odd { IsErrOf result EdgeRefusal.Failed → self.new.faults.plan.calls % 2 ≢ 0 →
            self.new.lists ≡ self.old.lists }
    {
        if !self.faults.next_fails() {
            add_record(self.alloc, &mut self.lists, actor, bytes)?;
            return Ok(());
        }
        if self.faults.last_is_even() {
            add_record(self.alloc, &mut self.lists, actor, bytes)?;
        }
        Err(EdgeRefusal::Failed)
    }
}
