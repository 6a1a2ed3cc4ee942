ghost use Rattle.std.specs.Prelude.{◌≡◌, ◌==◌, find, option_map};

use fabric_terms::{Address, FabricConfig, NodeEntry};

fn node_entry(nodes: &[NodeEntry], number: u16) -> Option<&NodeEntry>
    ensures { option_map (λ e. e.now) result ≡ find (λ e. e.node == number) nodes.now }
{
    nodes.iter().find(|e| e.node == number)
}

fn arbiter_entry(arbiters: &[(u16, Address)], number: u16) -> Option<&(u16, Address)>
    ensures { option_map (λ a. a.now) result ≡ find (λ a. a.0 == number) arbiters.now }
{
    arbiters.iter().find(|a| a.0 == number)
}

/// Where the node of a number listens, if it is configured.
pub fn node_address(config: &FabricConfig, number: u16) -> Option<&str>
    ensures { option_map (λ at. at.now) result ≡
        option_map (λ e. e.at) (find (λ e. e.node == number) config.now.nodes) }
{
    match node_entry(config.nodes.as_slice(), number) {
        None => None,
        Some(entry) => Some(entry.at.as_str()),
    }
}

/// Where the arbitrator of a number listens, if it is configured.
pub fn arbiter_address(config: &FabricConfig, number: u16) -> Option<&str>
    ensures { option_map (λ at. at.now) result ≡ option_map (λ a. a.1) (find (λ a. a.0 == number) config.now.arbiters) }
{
    match arbiter_entry(config.arbiters.as_slice(), number) {
        None => None,
        Some(entry) => Some(entry.1.as_str()),
    }
}
