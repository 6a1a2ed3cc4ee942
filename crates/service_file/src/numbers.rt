ghost use Rattle.std.specs.Prelude.{◌≡◌, ◌≤◌, IfSome};
ghost use Rattle.serde_json.specs.View.{view};
ghost use Rattle.fabric_config.specs.Nodes.{listed};
ghost use Rattle.service_file.specs.Entries.{are_apart, configured_in, number_in};

use fabric_terms::{FabricConfig, NodeEntry};
use serde_json::Value;

/// A whole number from `low` to `high`.
#[tactic(auto, unfolding(crate::specs::Entries::number_in))]
pub fn number_in(low: u64, high: u64, value: &Value) -> Option<u64>
    ensures value { result ≡ number_in low high (view value.now) }
    ensures least { IfSome result (λ n. low ≤ n) }
    ensures greatest { IfSome result (λ n. n ≤ high) }
{
    let number = value.as_u64()?;
    if low <= number && number <= high {
        Some(number)
    } else {
        None
    }
}

/// The node of this number, if it is listed.
fn find_node(nodes: &[NodeEntry], number: u64) -> Option<u16>
    ensures { result ≡ listed number nodes.now }
{
    nodes
        .iter()
        .find(|entry| u64::from(entry.node) == number)
        .map(|entry| entry.node)
}

/// The number of a configured node.
#[tactic(auto, unfolding(crate::specs::Entries::configured_in))]
pub fn configured_in(config: &FabricConfig, value: &Value) -> Option<u16>
    ensures { result ≡ configured_in config.now (view value.now) }
{
    find_node(config.nodes.as_slice(), value.as_u64()?)
}

/// Whether no number comes twice.
pub fn are_apart(numbers: &[u16]) -> bool
    ensures { result ≡ are_apart numbers.now }
{
    let mut rest = numbers;
    while let [first, more @ ..] = rest {
        if more.contains(first) {
            return false;
        }
        rest = more;
    }
    true
}
