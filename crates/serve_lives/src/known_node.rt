ghost use Rattle.std.specs.Prelude.{◌≡◌};
ghost use Rattle.ring_rules.specs.Slots.{is_bound, of_node};
ghost use Rattle.serve_lives.specs.Known.{gives_in, stands};

use fabric_steward::{Known, Linked};
use node_core::NodeCore;
use ring_points::{Config, Point, Who};
use ring_rules::{Link, LinkState};

/// A node as the policy sees it.
#[derive(Clone, Copy)]
pub struct KnownNode<'a> {
    pub core: &'a NodeCore,
}

/// Whether a slot has a bound link with a node.
fn is_bound_with(slot: &Option<Link>, node: u16) -> bool
    ensures { result ≡ of_node is_bound node slot.now }
{
    match slot {
        None => false,
        Some(link) => link.peer.actor == node && link.state == LinkState::Bound,
    }
}

fn stands(state: LinkState) -> bool
    ensures { result ≡ stands state }
{
    matches!(
        state,
        LinkState::Offered | LinkState::Bound | LinkState::Parting
    )
}

/// Whether a slot has an active link with a node.
fn stands_with(slot: &Option<Link>, node: u16) -> bool
    ensures { result ≡ of_node stands node slot.now }
{
    match slot {
        None => false,
        Some(link) => link.peer.actor == node && stands(link.state),
    }
}

/// Whether a flight to the peer of a slot is out.
fn gives_in(slot: &Option<Link>) -> bool
    ensures { result ≡ gives_in slot.now }
{
    match slot {
        None => false,
        Some(link) => link.flight.is_some(),
    }
}

impl Known for KnownNode<'_> {
    ghost use Rattle.serve_lives.specs.Known.{facts_of};

    ghost facts = { λ k. facts_of k.core.now };

    fn routes(&self) -> bool {
        self.core.ring().is_routing()
    }

    fn manages(&self, now: u64) -> bool {
        let ring = self.core.ring();
        ring.is_routing() && ring.holds(now, Point(0))
    }

    fn is_up(&self, node: u16, now: u64) -> bool {
        let ring = self.core.ring();
        ring.is_up(now.saturating_sub(2 * ring.lease()), node)
    }

    fn heard(&self, node: u16, since: u64) -> Option<Who> {
        self.core.heard(node, since)
    }

    fn config_of(&self, partition: u16) -> Option<&Config> {
        self.core.config_of(partition)
    }

    fn is_changing(&self, partition: u16) -> bool {
        self.core.is_changing(partition)
    }
}

impl Linked for KnownNode<'_> {
    ghost use Rattle.serve_lives.specs.Known.{links_of};

    ghost links = { λ k. links_of k.core.now };

    fn owns(&self) -> bool {
        !self.core.ranges().intervals().is_empty()
    }

    fn is_giving(&self) -> bool {
        self.core.slots().iter().any(|slot| gives_in(slot))
    }

    fn is_bound(&self, node: u16) -> bool {
        self.core
            .slots()
            .iter()
            .any(|slot| is_bound_with(slot, node))
    }

    fn is_active(&self, node: u16) -> bool {
        self.core.slots().iter().any(|slot| stands_with(slot, node))
    }
}
