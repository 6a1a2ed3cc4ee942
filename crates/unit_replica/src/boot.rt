ghost use Rattle.std.specs.Prelude.{◌≡◌, ◌+◌, ◌≤◌, ◌++◌, [], IfErr, IfOk, IsTrue, OnErr, OnOk, length, vec_capacity};
ghost use Rattle.std.specs.Prelude.{vec_len};
ghost use Rattle.fabric_lemmas.specs.Maps.{rises};
ghost use Rattle.unit_replica.specs.Starts.{replicas_in, states_from, states_of, states_uncollected, with_replica};

use crate::named_replica::NamedReplica;
use crate::replica_state::ReplicaState;
use crate::replica_states::ReplicaStates;
use fabric_terms::OutOfMemory;
use replica_core::Replica;
use ring_points::MAX_PARTITIONS;
use std::alloc::Global;
use std::collections::BTreeMap;

/// Puts a replica among the others. If memory is short, the replica comes back.
fn state_one(
    alloc: Global,
    map: &mut BTreeMap<u16, ReplicaState>,
    replica: Replica,
) -> Result<(), Replica>
    ensures replica_put { OnOk result (map.new.entries ≡ with_replica replica map.old.entries) }
    ensures refused { IfErr result (λ same. (same ≡ replica) × (map.new.entries ≡ map.old.entries)) }
    ensures room { length map.new.entries ≤ length map.old.entries + 1 }
{
    let partition = replica.partition();
    let state = ReplicaState {
        replica: NamedReplica::of(alloc, replica),
        catch_up: None,
        progress: None,
    };
    match map.insert(partition, state) {
        Ok(_) => Ok(()),
        Err(refused) => Err(refused.value.1.replica.into_replica()),
    }
}

/// Puts replicas in front of those in the map, the last one first. If memory is short, the first ones stay in the list.
fn state_all(
    alloc: Global,
    map: &mut BTreeMap<u16, ReplicaState>,
    replicas: &mut Vec<Replica>,
) -> Result<(), OutOfMemory>
    requires rising { IsTrue (rises (states_of replicas.old.items ++ map.old.entries)) }
    requires room { vec_len replicas.old + length map.old.entries ≤ vec_capacity replicas.old }
    ensures moved { states_of replicas.new.items ++ map.new.entries ≡ states_of replicas.old.items ++ map.old.entries }
    ensures all { OnOk result (replicas.new.items ≡ []) }
    ensures room { vec_len replicas.new + length map.new.entries ≤ vec_capacity replicas.new }
{
    while let Some(replica) = replicas.pop() {
        if let Err(refused) = state_one(alloc, map, replica) {
            replicas.push_reserved(refused);
            return Err(OutOfMemory);
        }
    }
    Ok(())
}

/// Moves the replicas of the map behind a list that has room for them, by rising partition.
fn give_back(map: BTreeMap<u16, ReplicaState>, replicas: &mut Vec<Replica>)
    requires { vec_len replicas.old + length map.entries ≤ vec_capacity replicas.old }
    ensures { replicas.new.items ≡ replicas.old.items ++ replicas_in map.entries }
{
    for state in map.into_values() {
        replicas.push_reserved(state.replica.into_replica());
    }
}

/// Forgets all collected entries, as every start does.
fn end_collections(map: &mut BTreeMap<u16, ReplicaState>)
    ensures { map.new.entries ≡ states_uncollected map.old.entries }
{
    map.retain(|_, state| {
        state.drop_collected();
        true
    });
}

impl ReplicaStates {
    /// The replica states with which an instance starts. The list has the replicas to which the node's records amount,
    /// rising by partition; they are taken out of it. Collected entries are forgotten, and no replica has progress as a
    /// primary. It is an error if memory is short, and then the list is as before.
    pub fn begun(alloc: Global, replicas: &mut Vec<Replica>) -> Result<Self, OutOfMemory>
        requires { IsTrue (rises (states_of replicas.old.items)) }
        ensures begun { IfOk result (λ states. states ≡ states_from replicas.old.items) }
        ensures taken { OnOk result (replicas.new.items ≡ []) }
        ensures refused { OnErr result (replicas.new.items ≡ replicas.old.items) }
    {
        if replicas.len() > MAX_PARTITIONS {
            return Err(OutOfMemory);
        }
        let mut map = BTreeMap::new(alloc);
        match state_all(alloc, &mut map, replicas) {
            Ok(()) => {
                end_collections(&mut map);
                Ok(ReplicaStates { alloc, map })
            }
            Err(_) => {
                give_back(map, replicas);
                Err(OutOfMemory)
            }
        }
    }
}
