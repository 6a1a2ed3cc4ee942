ghost use Rattle.std.specs.Prelude.{◌≡◌, [], length};
ghost use Rattle.std.specs.List.{list_any};
ghost use Rattle.again_choice.specs.Folders.{fault_of, first_fault, has_actor, has_arbiter, is_actor_of};
ghost use Rattle.again_choice.specs.Folders.{missing_arbiter, missing_node};

use crate::refusal::AgainRefusal;
use fabric_terms::{Address, FabricConfig, NodeEntry};
use keep_log::Kept;
use ring_points::ARBITRATORS;
use service_file::ActorFile;

/// What a folder says: its file `actor`, and what the records amount to.
#[derive(Drop)]
pub struct Folder {
    pub file: ActorFile,
    pub kept: Kept,
}

/// What was found in a folder.
#[derive(Drop)]
pub enum Found {
    /// A process runs its actor.
    Running,
    /// The file `actor` or the records are not read.
    Unreadable,
    Read(Folder),
}

/// Whether the folder is of this actor.
fn has_actor(actor: u16, found: &Found) -> bool
    ensures { result ≡ has_actor actor found.now }
{
    match found {
        Found::Read(folder) => folder.file.actor == actor,
        _ => false,
    }
}

/// Whether the folder is of this arbitrator.
fn has_arbiter(number: u16, found: &Found) -> bool
    ensures { result ≡ has_arbiter number found.now }
{
    match found {
        Found::Read(folder) => {
            u32::from(folder.file.actor) == u32::from(ARBITRATORS) + u32::from(number)
        }
        _ => false,
    }
}

fn any_has_actor(actor: u16, folders: &[Found]) -> bool
    ensures { result ≡ list_any (has_actor actor) folders.now }
{
    folders.iter().any(|found| has_actor(actor, found))
}

fn any_has_arbiter(number: u16, folders: &[Found]) -> bool
    ensures { result ≡ list_any (has_arbiter number) folders.now }
{
    folders.iter().any(|found| has_arbiter(number, found))
}

fn is_node_of(nodes: &[NodeEntry], found: &Found) -> bool
    ensures { result ≡ list_any (λ entry. has_actor entry.node found.now) nodes.now }
{
    nodes.iter().any(|entry| has_actor(entry.node, found))
}

fn is_arbiter_of(arbiters: &[(u16, Address)], found: &Found) -> bool
    ensures { result ≡ list_any (λ entry. has_arbiter entry.0 found.now) arbiters.now }
{
    arbiters.iter().any(|entry| has_arbiter(entry.0, found))
}

/// Whether the folder is of an actor of the configuration.
fn is_actor_of(config: &FabricConfig, found: &Found) -> bool
    ensures { result ≡ is_actor_of config.now found.now }
{
    is_node_of(config.nodes.as_slice(), found) || is_arbiter_of(config.arbiters.as_slice(), found)
}

/// What is wrong with a folder behind those before it.
#[tactic(auto, unfolding(crate::specs::Folders::fault_of))]
fn fault_of(
    config: &FabricConfig,
    checksum: &[u8; 32],
    before: &[Found],
    found: &Found,
) -> Option<AgainRefusal>
    ensures { result ≡ fault_of config.now checksum.now before.now found.now }
{
    let place = before.len();
    match found {
        Found::Running => Some(AgainRefusal::Running(place)),
        Found::Unreadable => Some(AgainRefusal::Read(place)),
        Found::Read(folder) => {
            if folder.file.checksum.as_slice() != checksum.as_slice()
                || !is_actor_of(config, found)
            {
                return Some(AgainRefusal::Other(place));
            }
            if any_has_actor(folder.file.actor, before) {
                return Some(AgainRefusal::Twice(place));
            }
            None
        }
    }
}

/// What is wrong with the first folder with which something is.
pub fn first_fault(
    config: &FabricConfig,
    checksum: &[u8; 32],
    folders: &[Found],
) -> Option<AgainRefusal>
    ensures { result ≡ first_fault config.now checksum.now [] folders.now }
{
    for (place, found) in folders.iter().enumerate() {
        let fault = fault_of(config, checksum, &folders[..place], found);
        if fault.is_some() {
            return fault;
        }
    }
    None
}

/// The first node that has no folder.
pub fn missing_node(config: &FabricConfig, folders: &[Found]) -> Option<AgainRefusal>
    ensures { result ≡ missing_node config.now folders.now }
{
    let entry = config
        .nodes
        .as_slice()
        .iter()
        .find(|entry| !any_has_actor(entry.node, folders))?;
    Some(AgainRefusal::MissingNode(entry.node))
}

/// The first arbitrator that has no folder.
pub fn missing_arbiter(config: &FabricConfig, folders: &[Found]) -> Option<AgainRefusal>
    ensures { result ≡ missing_arbiter config.now folders.now }
{
    let entry = config
        .arbiters
        .as_slice()
        .iter()
        .find(|entry| !any_has_arbiter(entry.0, folders))?;
    Some(AgainRefusal::MissingArbiter(entry.0))
}
