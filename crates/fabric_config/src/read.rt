ghost use Rattle.std.specs.Prelude.{◌≡◌, ◌↔◌, length, ◌==◌, Ok, Err, IsErr, IsErrOf, IsTrue, IfOk, List, ℕ};
ghost use Rattle.std.specs.List.{list_any};
ghost use Rattle.serde_json.specs.View.{view};
ghost use Rattle.fabric_terms.specs.Sound.{IsSound};
ghost use Rattle.fabric_terms.specs.declared.config.FabricConfig.{FabricConfig as Configuration};
ghost use Rattle.fabric_config.specs.Checks.{Reads, ReadsAs};
ghost use Rattle.fabric_config.specs.Config.{document_of, config_of, config_of_line, lacks_address};

use crate::arbiters::read_arbiters;
use crate::error::ConfigError;
use crate::field::Field;
use crate::limits::{ANSWER, DEFAULT_NEAR, DEFAULT_ROUNDS, DRIFT, GRAIN, LEASE, NEAR, ROUNDS};
use crate::nodes::{read_first, read_nodes};
use crate::numbers::{optional, required};
use drift_clock::Bound;
use fabric_terms::{Arbiters, FabricConfig, Nodes};
use serde_json::Value;
use std::alloc::Global;

/// The JSON object that the bytes spell. It is never inlined: the reader of JSON has a large frame of its own.
#[inline(never)]
#[tactic(auto, using(crate::proofs::Texts::documents))]
fn read_document(alloc: Global, line: &[u8]) -> Result<Value, ConfigError>
    ensures { ReadsAs view (document_of line.now) result }
{
    match Value::from_slice(alloc, line) {
        Ok(value) if value.is_object() => Ok(value),
        Ok(_) => Err(ConfigError::NotJson),
        Err(error) if error.is_memory() => Err(ConfigError::OutOfMemory),
        Err(_) => Err(ConfigError::NotJson),
    }
}

/// The checks of an object, in their order.
#[inline(never)]
#[tactic(auto, unfolding(crate::specs::Config::config_of))]
fn read_object(alloc: Global, object: &Value) -> Result<FabricConfig, ConfigError>
    ensures { Reads (config_of (view object.now)) result }
{
    let lease = required(object, LEASE)?;
    let answer = required(object, ANSWER)?;
    let d = required(object, DRIFT)?;
    let grain = required(object, GRAIN)?;
    let near = optional(object, NEAR, DEFAULT_NEAR)?;
    let rounds = optional(object, ROUNDS, DEFAULT_ROUNDS)?;
    let nodes = read_nodes(alloc, object, lease)?;
    let arbiters = read_arbiters(alloc, object)?;
    let first = read_first(object, nodes.as_slice())?;
    Ok(FabricConfig {
        first,
        near: near as u8,
        rounds: rounds as u8,
        lease,
        answer,
        bound: Bound { d, grain },
        nodes,
        arbiters,
    })
}

/// The configuration that the line spells, or the first check that it fails. Want of memory may come
/// in place of either.
#[tactic(auto, unfolding(crate::specs::Config::config_of_line))]
pub fn read_config(alloc: Global, line: &[u8]) -> Result<FabricConfig, ConfigError>
    ensures value { Reads (config_of_line line.now) result }
    ensures sound { IfOk result IsSound }
{
    let document = read_document(alloc, line)?;
    read_object(alloc, &document)
}

fn node_lacks_address(nodes: &Nodes) -> bool
    ensures { result ≡ list_any (λ node. length node.at == 0) nodes.now }
{
    nodes
        .as_slice()
        .iter()
        .any(|node| node.at.as_str().is_empty())
}

fn arbiter_lacks_address(arbiters: &Arbiters) -> bool
    ensures { result ≡ list_any (λ arbiter. length arbiter.1 == 0) arbiters.now }
{
    arbiters
        .as_slice()
        .iter()
        .any(|arbiter| arbiter.1.as_str().is_empty())
}

/// Refuses a configuration in which a node or an arbitrator has no address, as `Missing(Field::At)`.
pub fn need_endpoints(config: &FabricConfig) -> Result<(), ConfigError>
    ensures missing { IsErrOf result (ConfigError.Missing Field.At) ↔ IsTrue (lacks_address config.now) }
    ensures only { IsErr result → IsErrOf result (ConfigError.Missing Field.At) }
{
    if node_lacks_address(&config.nodes) || arbiter_lacks_address(&config.arbiters) {
        return Err(ConfigError::Missing(Field::At));
    }
    Ok(())
}

/// Whatever a line is read as is sound: a law of the definition.
pub fn what_is_read_is_sound()
    ensures { (line : List ℕ) (c : Configuration) → config_of_line line ≡ Ok c → IsSound c }
{}
