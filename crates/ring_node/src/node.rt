ghost use Rattle.std.specs.Prelude.{◌≡◌, ◌≤◌, ◌+◌, IsTrue, length, map, true};
ghost use Rattle.join_phases.specs.Phases.{bound_phase, holding_phase, is_left, is_linked, is_routing};
ghost use Rattle.token_core.specs.Tokens.{announced};
ghost use Rattle.ring_node.specs.Nodes.{with_phase};
ghost use Rattle.ring_rules.specs.Deeds.{has_numbers};
ghost use Rattle.ring_route.specs.Routes.{point_of};

use crate::reports::Reports;
use arrayvec::ArrayVec;
use fabric_terms::Outbox;
use join_phases::Phase;
use link_core::{Announced, Links16};
use ring_points::{MAX_ARBITRATORS, MAX_COUNTER, MAX_LEASE, MAX_NODES, Point, Who};
use ring_route::RouteTable;
use ring_rules::Link;
use std::marker::Model;
use token_core::Token;

/// The ring at one node. Contracts see it as the record `Node`: its settings, and its ring as the rules know it.
#[derive(Drop)]
pub struct RingNode {
    pub(crate) links: Links16,
    pub(crate) token: Token,
    pub(crate) routes: RouteTable,
    pub(crate) points: ArrayVec<(u16, Point), MAX_NODES>,
    pub(crate) phase: Phase,
    pub(crate) target: Option<u16>,
    pub(crate) near: u8,
}

impl Model for RingNode {
    ghost use Rattle.ring_node.specs.Nodes.{Node, node_of, IsNode};

    ghost Value = { Node };

    ghost view = { λ n. node_of n.links n.token n.routes n.phase n.target n.near };

    ghost invariant = { λ n. IsNode (node_of n.links n.token n.routes n.phase n.target n.near) n.points.items };
}

/// The numbers of a step before a row, to go back to: the version, the last session, how many are accused, how many
/// messages are sent and how many reports are made.
#[derive(Clone, Copy)]
pub(crate) struct Mark {
    pub version: u32,
    pub last_session: u32,
    pub accused: usize,
    pub sent: usize,
    pub told: usize,
}

impl Mark {
    /// Before the first step.
    pub(crate) fn first() -> Mark
        ensures { result ≡ record { version = 1; last_session = 0; accused = 0; sent = 0; told = 0 } }
    {
        Mark {
            version: 1,
            last_session: 0,
            accused: 0,
            sent: 0,
            told: 0,
        }
    }
}

/// The point of this node among these, 0 where it is not among them.
fn point_in(points: &[(u16, Point)], node: u16) -> Point
    ensures { result.0 ≡ point_of node (map (λ p. (p.0, p.1.0)) points.now) }
{
    for entry in points {
        if entry.0 == node {
            return entry.1;
        }
    }
    Point(0)
}

/// What a Renew says of a node with this token in this phase.
pub(crate) fn announced<'a>(token: &'a Token, phase: &Phase) -> Announced<'a>
    ensures { result ≡ record {
      version = token.now.version;
      ranges = announced token.now;
      want = is_linked phase.now;
    } }
{
    let want = matches!(phase, Phase::Linked(_));
    Announced::new(token.version(), token.announced(), want)
}

impl RingNode {
    /// Which instance of which node it is.
    pub fn me(&self) -> Who
        ensures { result ≡ self.now.ring.me }
    {
        self.links.me()
    }

    /// The lease of a link that names no length, in ticks.
    pub fn lease(&self) -> u64
        ensures value { result ≡ self.now.settings.lease }
        ensures short { result ≤ MAX_LEASE }
    {
        self.links.lease()
    }

    /// How many arbitrators there are.
    pub fn arbitrators(&self) -> u8
        ensures value { result ≡ self.now.settings.arbitrators }
        ensures few { result ≤ MAX_ARBITRATORS }
    {
        self.links.arbitrators()
    }

    /// How far it has come.
    pub fn phase(&self) -> &Phase
        ensures { result.now ≡ self.now.ring.phase }
    {
        &self.phase
    }

    /// The slots of the links, free ones too: of each link its peer, its state and the length of its lease, in ticks.
    pub fn slots(&self) -> &[Option<Link>]
        ensures { result.now ≡ self.now.ring.slots }
    {
        self.links.slots()
    }

    pub(crate) fn mark(&self, out: &Outbox, told: &Reports) -> Mark
        ensures version { result.version ≡ self.now.ring.token.version }
        ensures sessions { result.last_session + 1 ≡ self.now.ring.next_session }
        ensures accused { result.accused ≡ length self.now.ring.accused }
        ensures sent { result.sent ≡ length out.now }
        ensures told { result.told ≡ length told.now }
        ensures numbers { IsTrue (has_numbers self.now.ring) }
    {
        Mark {
            version: self.token.version(),
            last_session: self.links.last_session(),
            accused: self.links.accused().len(),
            sent: out.messages().len(),
            told: told.as_slice().len(),
        }
    }

    /// No version, session or flight has a number past the last. That holds of every node, so that the version alone
    /// is looked at.
    pub(crate) fn has_numbers(&self) -> bool
        ensures value { result ≡ true }
        ensures numbers { IsTrue (has_numbers self.now.ring) }
    {
        u64::from(self.token.version()) <= MAX_COUNTER
    }

    pub(crate) fn is_left(&self) -> bool
        ensures value { result ≡ is_left self.now.ring.phase }
        ensures numbers { IsTrue (has_numbers self.now.ring) }
    {
        matches!(self.phase, Phase::Left(_))
    }

    /// Whether the node routes: it has had ranges, and has not left.
    pub fn is_routing(&self) -> bool
        ensures { result ≡ is_routing self.now.ring.phase }
    {
        matches!(self.phase, Phase::Routing(_))
    }

    /// The point of a configured node, 0 for any other.
    pub(crate) fn point_of(&self, node: u16) -> Point
        ensures { result.0 ≡ point_of node self.now.ring.routes.points }
    {
        point_in(self.points.as_slice(), node)
    }

    /// A link is bound.
    pub(crate) fn bind(&mut self)
        ensures { self.new ≡ with_phase bound_phase self.old }
    {
        self.phase.bind();
    }

    /// Ranges are owned.
    pub(crate) fn hold(&mut self)
        ensures { self.new ≡ with_phase holding_phase self.old }
    {
        self.phase.hold();
    }
}
