// The actors of a run, in the order of their turns.
ghost use Rattle.std.specs.Prelude.{◌≡◌, ◌≤◌, ◌++◌, ◌∷◌, [], IfOk, OnOk, option_map};
ghost use Rattle.ring_points.specs.Limits.{most_arbiters, most_node_number};
ghost use Rattle.turn_plans.specs.Crews.{arbiter_at, arbiters_to, endpoints_of, listener, node_at, nodes_to};

use crate::crew::Crew;
use edge_io::{Endpoint, SocketAddress};
use fabric_terms::{FabricConfig, OutOfMemory};
use ring_points::{ARBITRATORS, MAX_ARBITRATORS, MAX_NODE_NUMBER};
use std::alloc::Global;
use turn_rules::{arbiter_address, node_address};

/// Adds an actor, and where it listens.
fn push_endpoint(
    alloc: Global,
    actor: u16,
    at: &str,
    into: &mut Vec<Endpoint>,
) -> Result<(), OutOfMemory>
    ensures { OnOk result (into.new.items ≡ into.old.items ++ record { actor = actor; at = at.now } ∷ []) }
{
    let at = SocketAddress::new(String::from_str(alloc, at)?);
    into.push(Endpoint { actor, at })?;
    Ok(())
}

/// Adds an actor where it has an address.
fn push_listener(
    alloc: Global,
    actor: u16,
    at: Option<&str>,
    into: &mut Vec<Endpoint>,
) -> Result<(), OutOfMemory>
    ensures { OnOk result (into.new.items ≡ into.old.items ++ listener actor (option_map (λ at. at.now) at.entry)) }
{
    match at {
        None => Ok(()),
        Some(at) => push_endpoint(alloc, actor, at, into),
    }
}

/// Adds the node of a number.
fn push_node(
    alloc: Global,
    config: &FabricConfig,
    number: u16,
    into: &mut Vec<Endpoint>,
) -> Result<(), OutOfMemory>
    ensures { OnOk result (into.new.items ≡ into.old.items ++ node_at config.now number) }
{
    push_listener(alloc, number, node_address(config, number), into)
}

/// Adds the arbitrator of a number.
fn push_arbiter(
    alloc: Global,
    config: &FabricConfig,
    number: u16,
    into: &mut Vec<Endpoint>,
) -> Result<(), OutOfMemory>
    requires { number ≤ 255 }
    ensures { OnOk result (into.new.items ≡ into.old.items ++ arbiter_at config.now number) }
{
    push_listener(
        alloc,
        ARBITRATORS + number,
        arbiter_address(config, number),
        into,
    )
}

/// Adds all nodes, rising.
fn push_nodes(
    alloc: Global,
    config: &FabricConfig,
    into: &mut Vec<Endpoint>,
) -> Result<(), OutOfMemory>
    ensures { OnOk result (into.new.items ≡ into.old.items ++ nodes_to config.now most_node_number) }
{
    for number in 0..MAX_NODE_NUMBER {
        push_node(alloc, config, number + 1, into)?;
    }
    Ok(())
}

/// Adds all arbitrators, rising.
fn push_arbiters(
    alloc: Global,
    config: &FabricConfig,
    into: &mut Vec<Endpoint>,
) -> Result<(), OutOfMemory>
    ensures { OnOk result (into.new.items ≡ into.old.items ++ arbiters_to config.now most_arbiters) }
{
    for number in 0..MAX_ARBITRATORS as u16 {
        push_arbiter(alloc, config, number + 1, into)?;
    }
    Ok(())
}

/// The actors of a crew, each with where it listens.
pub(crate) fn endpoints_of(
    alloc: Global,
    config: &FabricConfig,
    crew: Crew,
) -> Result<Vec<Endpoint>, OutOfMemory>
    ensures { IfOk result (λ actors. actors.items ≡ endpoints_of config.now crew) }
{
    let mut actors = Vec::new(alloc);
    match crew {
        Crew::Node(node) => push_node(alloc, config, node, &mut actors)?,
        Crew::Arbiter(arbiter) => push_arbiter(alloc, config, u16::from(arbiter), &mut actors)?,
        Crew::Cluster => {
            push_nodes(alloc, config, &mut actors)?;
            push_arbiters(alloc, config, &mut actors)?
        }
    }
    Ok(actors)
}
