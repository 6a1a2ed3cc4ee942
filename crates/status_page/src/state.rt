ghost use Rattle.std.specs.Prelude.{◌≡◌, ◌++◌, OnOk};
ghost use Rattle.status_page.specs.States.{arbiter_text, door_fields, node_fields, node_text, or_null};
ghost use Rattle.status_page.specs.States.{partition_fields, ring_fields};

use crate::array::push_array;
use door_lines::{phase_word, push_hex, push_number_behind, push_who_behind};
use fabric_terms::OutOfMemory;
use join_phases::Phase;
use replica_core::Role;
use ring_points::{Epoch, Interval, Who};
use ring_rules::LinkState;
use text_fields::{push_bytes, push_number};

/// A link: its peer, how far it has come, and its length in ticks.
#[derive(Clone, Copy, Debug, PartialEq, Eq)]
pub struct LinkFact {
    pub peer: Who,
    pub state: LinkState,
    pub length: u64,
}

/// A replica: its partition, its epoch, its role, and its last entry.
#[derive(Clone, Copy, Debug, PartialEq, Eq)]
pub struct ReplicaFact {
    pub partition: u16,
    pub epoch: Epoch,
    pub role: Role,
    pub last: u32,
}

/// A reconfiguration that is under way, and for how many ticks it is.
#[derive(Clone, Copy, Debug, PartialEq, Eq)]
pub struct ChangeFact {
    pub partition: u16,
    pub epoch: Epoch,
    pub ticks: u64,
}

/// The state of a node, but for its phase.
#[derive(Drop)]
pub struct NodeFacts {
    pub who: Who,
    pub reading: u64,
    pub fence: Option<u64>,
    pub owns: Vec<Interval>,
    /// The nodes that are up.
    pub up: Vec<u16>,
    pub links: Vec<LinkFact>,
    pub replicas: Vec<ReplicaFact>,
    pub changing: Vec<ChangeFact>,
}

/// What the door knows of an actor.
#[derive(Clone, Copy, Debug, PartialEq, Eq)]
pub struct DoorFacts {
    /// Open answers.
    pub open: u64,
    /// Clients that watch.
    pub watchers: u64,
    /// Of the configuration.
    pub checksum: [u8; 32],
}

fn push_or_null(into: &mut Vec<u8>, n: Option<u64>) -> Result<(), OutOfMemory>
    ensures { OnOk result (into.new.items ≡ into.old.items ++ or_null n) }
{
    match n {
        None => push_bytes(into, b"null"),
        Some(n) => push_number(into, n),
    }
}

#[tactic(auto, unfolding(crate::specs::States::node_fields))]
fn push_node_fields(into: &mut Vec<u8>, phase: &Phase, node: &NodeFacts) -> Result<(), OutOfMemory>
    ensures { OnOk result (into.new.items ≡ into.old.items ++ node_fields phase.now node.now) }
{
    push_who_behind(into, b"{\"node\":\"", node.who)?;
    push_bytes(into, b"\",\"phase\":\"")?;
    push_bytes(into, phase_word(phase))?;
    push_number_behind(into, b"\",\"reading\":", node.reading)?;
    push_bytes(into, b",\"fence\":")?;
    push_or_null(into, node.fence)
}

#[tactic(auto, unfolding(crate::specs::States::ring_fields))]
fn push_ring_fields(into: &mut Vec<u8>, node: &NodeFacts) -> Result<(), OutOfMemory>
    ensures { OnOk result (into.new.items ≡ into.old.items ++ ring_fields node.now) }
{
    push_bytes(into, b",\"owns\":")?;
    push_array(into, &node.owns)?;
    push_bytes(into, b",\"up\":")?;
    push_array(into, &node.up)?;
    push_bytes(into, b",\"links\":")?;
    push_array(into, &node.links)
}

#[tactic(auto, unfolding(crate::specs::States::partition_fields))]
fn push_partition_fields(into: &mut Vec<u8>, node: &NodeFacts) -> Result<(), OutOfMemory>
    ensures { OnOk result (into.new.items ≡ into.old.items ++ partition_fields node.now) }
{
    push_bytes(into, b",\"replicas\":")?;
    push_array(into, &node.replicas)?;
    push_bytes(into, b",\"changing\":")?;
    push_array(into, &node.changing)
}

#[tactic(auto, unfolding(crate::specs::States::door_fields))]
fn push_door_fields(into: &mut Vec<u8>, door: &DoorFacts) -> Result<(), OutOfMemory>
    ensures { OnOk result (into.new.items ≡ into.old.items ++ door_fields door.now) }
{
    push_number_behind(into, b",\"open\":", door.open)?;
    push_number_behind(into, b",\"watchers\":", door.watchers)?;
    push_bytes(into, b",\"checksum\":\"")?;
    push_hex(into, &door.checksum)?;
    push_bytes(into, b"\"}")
}

/// Appends the state of a node.
#[tactic(auto, unfolding(crate::specs::States::node_text))]
pub fn push_node(
    into: &mut Vec<u8>,
    phase: &Phase,
    node: &NodeFacts,
    door: &DoorFacts,
) -> Result<(), OutOfMemory>
    ensures { OnOk result (into.new.items ≡ into.old.items ++ node_text phase.now node.now door.now) }
{
    push_node_fields(into, phase, node)?;
    push_ring_fields(into, node)?;
    push_partition_fields(into, node)?;
    push_door_fields(into, door)
}

/// Appends the state of an arbitrator.
#[tactic(auto, unfolding(crate::specs::States::arbiter_text))]
pub fn push_arbiter(
    into: &mut Vec<u8>,
    arbiter: u8,
    entries: u64,
    door: &DoorFacts,
) -> Result<(), OutOfMemory>
    ensures { OnOk result (into.new.items ≡ into.old.items ++ arbiter_text arbiter entries door.now) }
{
    push_number_behind(into, b"{\"arbiter\":", u64::from(arbiter))?;
    push_number_behind(into, b",\"entries\":", entries)?;
    push_door_fields(into, door)
}
