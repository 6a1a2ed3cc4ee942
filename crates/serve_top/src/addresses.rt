// The addresses of a start: those of FILE, and those of options.
ghost use Rattle.std.specs.Prelude.{◌≡◌, map, option_map};
ghost use Rattle.serve_top.specs.Addresses.{FindsBad, NeedsAddress, NeedsAddresses, RefusesAddress, addresses_of};

use crate::end::{End, short};
use fabric_terms::{Address, FabricConfig, NodeEntry};
use serve_edge::{read_address, shown};
use std::alloc::Global;

/// The end of a start that is given this text, which is no address.
fn refuse_address(alloc: Global, text: &str) -> End
    ensures { RefusesAddress text.now result }
{
    match Vec::from_slice(alloc, shown(text.as_bytes())) {
        Ok(text) => End::Address(text),
        Err(_) => short(),
    }
}

/// Refuses a text that is no address.
pub fn need_address(alloc: Global, text: &str) -> Result<(), End>
    ensures { NeedsAddress text.now result }
{
    if read_address(text).is_some() {
        Ok(())
    } else {
        Err(refuse_address(alloc, text))
    }
}

/// The first address of these nodes that is none.
fn bad_node(nodes: &[NodeEntry]) -> Option<&str>
    ensures { FindsBad (map (λ n. n.at) nodes.now) (option_map (λ s. s.now) result) }
{
    for node in nodes {
        let at = node.at.as_str();
        if read_address(at).is_none() {
            return Some(at);
        }
    }
    None
}

/// The first address of these arbitrators that is none.
fn bad_arbiter(arbiters: &[(u16, Address)]) -> Option<&str>
    ensures { FindsBad (map (λ a. a.1) arbiters.now) (option_map (λ s. s.now) result) }
{
    for arbiter in arbiters {
        let at = arbiter.1.as_str();
        if read_address(at).is_none() {
            return Some(at);
        }
    }
    None
}

/// The first address of a configuration that is none: those of nodes come first, each kind in its order.
fn bad_address(config: &FabricConfig) -> Option<&str>
    ensures { FindsBad (addresses_of config.now) (option_map (λ s. s.now) result) }
{
    match bad_node(config.nodes.as_slice()) {
        Some(at) => Some(at),
        None => bad_arbiter(config.arbiters.as_slice()),
    }
}

/// Refuses the first address of a configuration that is none.
pub(crate) fn need_addresses(alloc: Global, config: &FabricConfig) -> Result<(), End>
    ensures { NeedsAddresses (addresses_of config.now) result }
{
    match bad_address(config) {
        Some(at) => Err(refuse_address(alloc, at)),
        None => Ok(()),
    }
}
