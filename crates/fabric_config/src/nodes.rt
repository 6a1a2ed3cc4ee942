ghost use Rattle.std.specs.Prelude.{◌≡◌, ◌≤◌, map, []};
ghost use Rattle.std.specs.List.{list_any};
ghost use Rattle.serde_json.specs.View.{view};
ghost use Rattle.fabric_config.specs.Checks.{Reads};
ghost use Rattle.fabric_config.specs.Nodes.{point_in, node_of, entries_of, nodes_of, repeats, first_repeated, listed};
ghost use Rattle.fabric_config.specs.Nodes.{first_of};

use crate::entries::{read_address, read_list};
use crate::error::ConfigError;
use crate::field::Field;
use crate::limits::{DEFAULT_DOMAIN, DOMAIN, LONGEST, NODE};
use crate::numbers::{optional, required, whole};
use crate::point::point_of;
use fabric_terms::{NodeEntry, Nodes};
use ring_points::{MAX_NODES, Point};
use serde_json::Value;
use std::alloc::Global;

#[tactic(auto, unfolding(crate::specs::Nodes::point_in))]
fn read_point(entry: &Value) -> Result<Point, ConfigError>
    ensures { result ≡ point_in (view entry.now) }
{
    let value = entry
        .get(Field::Point.name())
        .ok_or(ConfigError::Missing(Field::Point))?;
    let text = value.as_str().ok_or(ConfigError::Missing(Field::Point))?;
    point_of(text).ok_or(ConfigError::Missing(Field::Point))
}

/// One node. The lease is the default of the longest that it agrees to.
#[tactic(auto, unfolding(crate::specs::Nodes::node_of))]
fn read_node(alloc: Global, entry: &Value, lease: u64) -> Result<NodeEntry, ConfigError>
    requires least { 10 ≤ lease }
    requires greatest { lease ≤ 1000000000 }
    ensures { Reads (node_of lease (view entry.now)) result }
{
    if !entry.is_object() {
        return Err(ConfigError::Missing(Field::Nodes));
    }
    let node = required(entry, NODE)?;
    let point = read_point(entry)?;
    let domain = optional(entry, DOMAIN, DEFAULT_DOMAIN)?;
    let at = read_address(alloc, entry)?;
    let longest = optional(entry, LONGEST, lease)?;
    Ok(NodeEntry {
        node: node as u16,
        point,
        domain: domain as u16,
        at,
        longest,
    })
}

/// One entry after another.
#[tactic(auto, using(crate::proofs::Lists::nodes_in_turn))]
fn read_entries(alloc: Global, values: &[Value], lease: u64) -> Result<Nodes, ConfigError>
    requires least { 10 ≤ lease }
    requires greatest { lease ≤ 1000000000 }
    ensures { Reads (entries_of lease (map view values.now)) result }
{
    let mut entries = Vec::new(alloc);
    for value in values {
        entries.push(read_node(alloc, value, lease)?)?;
    }
    Ok(Nodes::new(entries))
}

fn repeats(a: &NodeEntry, b: &NodeEntry) -> bool
    ensures { result ≡ repeats a.now b.now }
{
    a.node == b.node || a.point == b.point
}

fn is_repeated(earlier: &[NodeEntry], node: &NodeEntry) -> bool
    ensures { result ≡ list_any (λ a. repeats a node.now) earlier.now }
{
    earlier.iter().any(|a| repeats(a, node))
}

/// The number of the first node whose number or point an earlier one has.
#[tactic(auto, using(crate::proofs::Repeats::search_for_one))]
fn first_repeated(nodes: &[NodeEntry]) -> Option<u16>
    ensures { result ≡ first_repeated [] nodes.now }
{
    for i in 0..nodes.len() {
        let node = &nodes[i];
        if is_repeated(&nodes[..i], node) {
            return Some(node.node);
        }
    }
    None
}

/// All nodes: their entries one after another, and then that none repeats an earlier one.
#[tactic(auto, unfolding(crate::specs::Nodes::nodes_of))]
pub fn read_nodes(alloc: Global, object: &Value, lease: u64) -> Result<Nodes, ConfigError>
    requires least { 10 ≤ lease }
    requires greatest { lease ≤ 1000000000 }
    ensures { Reads (nodes_of lease (view object.now)) result }
{
    let values = read_list(object, Field::Nodes, MAX_NODES as u64)?;
    let nodes = read_entries(alloc, values, lease)?;
    match first_repeated(nodes.as_slice()) {
        Some(node) => Err(ConfigError::Repeated(node)),
        None => Ok(nodes),
    }
}

/// The node of this number, if it is listed.
fn find_node(number: u64, nodes: &[NodeEntry]) -> Option<u16>
    ensures { result ≡ listed number nodes.now }
{
    nodes
        .iter()
        .find(|entry| u64::from(entry.node) == number)
        .map(|entry| entry.node)
}

/// The first node, which must be listed.
#[tactic(auto, unfolding(crate::specs::Nodes::first_of))]
pub fn read_first(object: &Value, nodes: &[NodeEntry]) -> Result<u16, ConfigError>
    ensures { result ≡ first_of nodes.now (view object.now) }
{
    let value = object
        .get(Field::First.name())
        .ok_or(ConfigError::Missing(Field::First))?;
    let number = whole(Field::First, value)?;
    find_node(number, nodes).ok_or(ConfigError::OutOfRange(Field::First, number))
}
