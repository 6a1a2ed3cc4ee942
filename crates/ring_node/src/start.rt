ghost use Rattle.std.specs.Prelude.{◌≡◌, ◌≤◌, [], IfOk, false, is_ok, length, map, true};
ghost use Rattle.fabric_terms.specs.Sound.{IsSound};
ghost use Rattle.link_core.specs.Settings.{AreSoundSettings};
ghost use Rattle.ring_node.specs.Begins.{unbegun};
ghost use Rattle.ring_node.specs.Nodes.{step};
ghost use Rattle.ring_node.specs.Steps.{begun, first_phase, first_ranges, started};
ghost use Rattle.ring_rules.specs.Rings.{longest_of, points_of, settings_of};
ghost use Rattle.ring_rules.specs.Starts.{new_ring};

use crate::node::{Mark, RingNode};
use crate::reports::Reports;
use arrayvec::ArrayVec;
use drift_clock::Bound;
use fabric_terms::{FabricConfig, NodeEntry, OutOfMemory, Report, Why};
use join_phases::{Booting, Phase};
use link_core::{LinkSettings, Links16};
use ring_points::{MAX_NODES, Point, RangeSet, Who};
use ring_route::RouteTable;
use std::alloc::Global;
use token_core::Token;

/// The longest lease that a node agrees to, 0 where it is not configured.
fn longest_of(nodes: &[NodeEntry], node: u16) -> u64
    ensures { result ≡ longest_of node nodes.now }
{
    for entry in nodes {
        if entry.node == node {
            return entry.longest;
        }
    }
    0
}

/// Makes these points those of the nodes.
pub(crate) fn put_points(points: &mut ArrayVec<(u16, Point), MAX_NODES>, nodes: &[NodeEntry])
    requires { length nodes.now ≤ MAX_NODES }
    ensures { map (λ p. (p.0, p.1.0)) points.new.items ≡ points_of nodes.now }
{
    points.clear();
    for entry in nodes {
        points.push((entry.node, entry.point));
    }
}

/// What the links of this node go by.
pub(crate) fn link_settings(config: &FabricConfig, node: u16) -> LinkSettings
    requires { IsSound config.now }
    ensures settings { result ≡ record {
      lease = config.now.lease;
      longest = longest_of node config.now.nodes;
      answer = config.now.answer;
      bound = config.now.bound;
      arbitrators = length config.now.arbiters;
      rounds = config.now.rounds;
    } }
    ensures sound { AreSoundSettings result }
{
    LinkSettings {
        lease: config.lease,
        longest: longest_of(config.nodes.as_slice(), node),
        answer: config.answer,
        bound: config.bound,
        arbitrators: config.arbiters.as_slice().len() as u8,
        rounds: config.rounds,
    }
}

/// How an instance begins: with the whole ring, as instance 1 of the first node does, or with nothing.
pub(crate) fn first_phase(whole: bool) -> (Phase, RangeSet)
    ensures phase { result.0 ≡ first_phase whole }
    ensures ranges { result.1 ≡ first_ranges whole }
{
    match Booting::new(whole, 1).found() {
        Ok(routing) => (Phase::Routing(routing), RangeSet::whole()),
        Err(booting) => (Phase::Seeking(booting.seek()), RangeSet::new()),
    }
}

impl RingNode {
    /// A node in this phase with these ranges, before its first step.
    fn in_phase(config: &FabricConfig, me: Who, phase: Phase, ranges: RangeSet) -> RingNode
        requires { IsSound config.now }
        ensures settings { result.settings ≡ settings_of config.now me.actor }
        ensures ring { result.ring ≡ new_ring config.now me phase ranges }
    {
        let mut points = ArrayVec::new();
        put_points(&mut points, config.nodes.as_slice());
        let settings = link_settings(config, me.actor);
        RingNode {
            links: Links16::new(
                me,
                settings.lease,
                settings.longest,
                settings.answer,
                settings.bound,
                settings.arbitrators,
                settings.rounds,
            ),
            token: Token::new(ranges),
            routes: RouteTable::new(me, points.as_slice()),
            points,
            phase,
            target: None,
            near: config.near,
        }
    }

    /// A node of no cluster, which has not begun: `begin_again` starts an instance in its place. All of it is fixed and lies
    /// in the value itself, so that whoever boxes it writes it once, where it stays.
    pub fn unbegun() -> RingNode
        ensures { result ≡ unbegun }
    {
        let nobody = Who {
            actor: 0,
            instance: 0,
        };
        RingNode {
            links: Links16::new(nobody, 0, 0, 0, Bound { d: 0, grain: 0 }, 0, 0),
            token: Token::new(RangeSet::new()),
            routes: RouteTable::new(nobody, &[]),
            points: ArrayVec::new(),
            phase: Phase::Seeking(Booting::new(false, 1).seek()),
            target: None,
            near: 0,
        }
    }

    /// The instance of a node that starts, and what it tells: that it left, where all numbers of instances are spent,
    /// and what it owns. It begins with the whole ring or with nothing, as `whole` says. No call fails.
    #[tactic(auto, unfolding(ring_rules::specs::Starts::node_started))]
    pub fn begin(config: &FabricConfig, me: Who, whole: bool, spent: bool) -> (RingNode, Reports)
        requires { IsSound config.now }
        ensures { step result.0 [] result.1 ≡ begun config.now me whole spent }
    {
        let (phase, ranges) = first_phase(whole);
        let mut node = RingNode::in_phase(config, me, phase, ranges);
        let mut told = Reports::new();
        if spent {
            node.leave_at(Why::Counters, Mark::first());
            told.push(Report::LeftRing(Why::Counters));
        }
        told.push(Report::Own(node.token.ranges().copy(), node.links.fence()));
        (node, told)
    }

    /// Starts an instance by the configuration: instance 1 of the first node begins with the whole ring. No memory is
    /// needed, and no call fails.
    #[tactic(auto, unfolding(ring_rules::specs::Starts::node_started))]
    pub fn new(
        _alloc: Global,
        config: &FabricConfig,
        me: Who,
        _now: u64,
        spent: bool,
    ) -> Result<(RingNode, Reports), OutOfMemory>
        requires { IsSound config.now }
        ensures ok { is_ok result ≡ true }
        ensures started { IfOk result (λ begun. step begun.0 [] begun.1 ≡ started config.now me spent) }
    {
        let whole = me.actor == config.first && me.instance == 1;
        Ok(RingNode::begin(config, me, whole, spent))
    }
}
