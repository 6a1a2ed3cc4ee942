// Whom a manager greets: a node of a fault domain in which it has heard nobody, while it needs more domains.
ghost use Rattle.std.specs.Prelude.{◌≡◌};
ghost use Rattle.fabric_steward.specs.Greetings.{awaited, earlier_of, greet_rule, is_awaited, is_earlier, is_missing};
ghost use Rattle.fabric_steward.specs.Greetings.{is_short, is_to_greet, longest_ago};

use crate::advice::Advice;
use crate::domains::is_domain_up;
use crate::known::Known;
use crate::node_watch::NodeWatch;
use crate::steward::Steward;
use crate::times::is_over;

/// A further greeting goes only while fewer than this have no answer.
pub const MAX_GREETED: usize = 4;

/// Whether the first reading comes no later. What never was comes before all.
fn is_earlier(reading: Option<u64>, other: Option<u64>) -> bool
    ensures { result ≡ is_earlier reading other }
{
    match (reading, other) {
        (None, _) => true,
        (Some(_), None) => false,
        (Some(reading), Some(other)) => reading <= other,
    }
}

/// Of two nodes the one whose last greeting is longer ago.
fn earlier_of(node: NodeWatch, other: Option<NodeWatch>) -> NodeWatch
    ensures { result ≡ earlier_of node other }
{
    match other {
        None => node,
        Some(other) => {
            if is_earlier(node.greeted, other.greeted) {
                node
            } else {
                other
            }
        }
    }
}

impl Steward {
    /// The node manages and needs more domains, another domain is missing, and few greetings are out.
    pub(crate) fn greet_rule<K: Known>(&self, known: &K, now: u64, domains: usize) -> Option<Advice>
        ensures { result ≡ greet_rule (K.facts known.now) now domains self.now }
    {
        if !known.manages(now)
            || !self.is_short(domains)
            || MAX_GREETED <= self.awaited(known, now)
        {
            return None;
        }
        match self.longest_ago(known, now, self.nodes.as_slice()) {
            None => None,
            Some(node) => Some(Advice::Greet(node.node)),
        }
    }

    /// Whether a partition is to have more replicas than there are domains.
    fn is_short(&self, domains: usize) -> bool
        ensures { result ≡ is_short domains self.now }
    {
        self.units
            .iter()
            .any(|unit| domains < unit.replicas as usize)
    }

    /// How many nodes were greeted within two leases and are missing still.
    fn awaited<K: Known>(&self, known: &K, now: u64) -> usize
        ensures { result ≡ awaited (K.facts known.now) now self.now }
    {
        self.nodes
            .iter()
            .filter(|node| self.is_awaited(known, now, node))
            .count()
    }

    /// Of those to be greeted the one whose last greeting is the longest ago.
    fn longest_ago<K: Known>(&self, known: &K, now: u64, nodes: &[NodeWatch]) -> Option<NodeWatch>
        ensures { result ≡ longest_ago (K.facts known.now) now self.now nodes.now }
    {
        let mut longest = None;
        let mut place = nodes.len();
        while place > 0 {
            place -= 1;
            let node = nodes[place];
            if self.is_to_greet(known, now, &node) {
                longest = Some(earlier_of(node, longest));
            }
        }
        longest
    }

    fn is_awaited<K: Known>(&self, known: &K, now: u64, node: &NodeWatch) -> bool
        ensures { result ≡ is_awaited (K.facts known.now) now self.now node.now }
    {
        self.is_missing(known, now, node) && !is_over(now, self.lease * 2, node.greeted)
    }

    fn is_to_greet<K: Known>(&self, known: &K, now: u64, node: &NodeWatch) -> bool
        ensures { result ≡ is_to_greet (K.facts known.now) now self.now node.now }
    {
        self.is_missing(known, now, node) && is_over(now, self.lease * 2, node.greeted)
    }

    /// Whether it is another node, in whose domain nobody is up.
    fn is_missing<K: Known>(&self, known: &K, now: u64, node: &NodeWatch) -> bool
        ensures { result ≡ is_missing (K.facts known.now) now self.now node.now }
    {
        node.node != self.me && !is_domain_up(known, now, node.domain, self.nodes.as_slice())
    }
}
