ghost use Rattle.std.specs.Prelude.{◌≡◌, ◌≤◌, length};
ghost use Rattle.fabric_steward.specs.Domains.{counts, domains_up, is_domain_up, nodes_up};

use crate::known::Known;
use crate::node_watch::NodeWatch;

/// Whether one of the nodes is of this domain and up.
pub fn is_domain_up<K: Known>(known: &K, now: u64, domain: u16, nodes: &[NodeWatch]) -> bool
    ensures { result ≡ is_domain_up (K.facts known.now) now domain nodes.now }
{
    nodes.iter().any(|other| other.domain == domain && known.is_up(other.node, now))
}

/// Whether a node is up, and no later one of its domain is.
fn counts<K: Known>(known: &K, now: u64, node: &NodeWatch, rest: &[NodeWatch]) -> bool
    ensures { result ≡ counts (K.facts known.now) now node.now rest.now }
{
    known.is_up(node.node, now) && !is_domain_up(known, now, node.domain, rest)
}

/// In how many fault domains a node is up.
pub fn domains_up<K: Known>(known: &K, now: u64, nodes: &[NodeWatch]) -> usize
    ensures { result ≡ domains_up (K.facts known.now) now nodes.now }
{
    let mut count = 0;
    let mut place = nodes.len();
    while place > 0 {
        place -= 1;
        if counts(known, now, &nodes[place], &nodes[place + 1..]) {
            count += 1;
        }
    }
    count
}

/// How many of these nodes are up.
pub fn nodes_up<K: Known>(known: &K, now: u64, nodes: &[u16]) -> usize
    ensures { result ≡ nodes_up (K.facts known.now) now nodes.now }
{
    nodes.iter().filter(|node| known.is_up(**node, now)).count()
}
