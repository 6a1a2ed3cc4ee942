// A start in the place of an instance that has ended.
ghost use Rattle.std.specs.Prelude.{◌≡◌, ◌+◌, ◌≤◌, ◌++◌, [], length, vec_capacity, vec_len};
ghost use Rattle.fabric_terms.specs.Sound.{IsSound};
ghost use Rattle.ring_node.specs.Nodes.{step};
ghost use Rattle.ring_node.specs.Begins.{begun_phase, begun_ranges, begun_told};
ghost use Rattle.ring_node.specs.Steps.{begun};
ghost use Rattle.ring_rules.specs.Rings.{settings_of};
ghost use Rattle.ring_rules.specs.Starts.{new_ring};

use crate::node::RingNode;
use crate::start::{first_phase, link_settings, put_points};
use fabric_terms::{FabricConfig, Report, Why};
use join_phases::{Booting, Phase};
use ring_points::{RangeSet, Who};
use ring_route::RouteTable;
use token_core::Token;

/// How an instance begins that may have no number: where all are spent, it has left.
fn begun_phase(whole: bool, spent: bool) -> (Phase, RangeSet)
    ensures phase { result.0 ≡ begun_phase whole spent }
    ensures ranges { result.1 ≡ begun_ranges whole spent }
{
    if !spent {
        return first_phase(whole);
    }
    let mut phase = Phase::Seeking(Booting::new(false, 1).seek());
    phase.leave(Why::Counters);
    (phase, RangeSet::new())
}

/// Tells how an instance begins that owns these ranges. The list has room for two reports.
fn tell_begun(ranges: &RangeSet, spent: bool, told: &mut Vec<Report>)
    requires room { vec_len told.old + 2 ≤ vec_capacity told.old }
    ensures told { told.new.items ≡ told.old.items ++ begun_told spent ranges.now }
    ensures few { length told.new.items ≤ length told.old.items + 2 }
{
    if spent {
        told.push_reserved(Report::LeftRing(Why::Counters));
    }
    told.push_reserved(Report::Own(ranges.copy(), None));
}

impl RingNode {
    /// A node in this phase with these ranges, before its first step. Nothing of the ended instance is left.
    fn phase_again(&mut self, config: &FabricConfig, me: Who, phase: Phase, ranges: RangeSet)
        requires { IsSound config.now }
        ensures settings { self.new.settings ≡ settings_of config.now me.actor }
        ensures ring { self.new.ring ≡ new_ring config.now me phase ranges }
    {
        put_points(&mut self.points, config.nodes.as_slice());
        self.links.begin_again(me, link_settings(config, me.actor));
        self.token = Token::new(ranges);
        self.routes = RouteTable::new(me, self.points.as_slice());
        self.phase = phase;
        self.target = None;
        self.near = config.near;
    }

    /// Starts an instance as `begin` does, in the place of one that has ended. A node is 36 KB: most of it stays where
    /// it lies. What the start tells comes into an empty list that has room for two reports.
    pub fn begin_again(
        &mut self,
        config: &FabricConfig,
        me: Who,
        whole: bool,
        spent: bool,
        told: &mut Vec<Report>,
    )
        requires sound { IsSound config.now }
        requires empty { told.old.items ≡ [] }
        requires room { vec_len told.old + 2 ≤ vec_capacity told.old }
        ensures begins { step self.new [] told.new.items ≡ begun config.now me whole spent }
        ensures few { length told.new.items ≤ 2 }
    {
        let (phase, ranges) = begun_phase(whole, spent);
        tell_begun(&ranges, spent, told);
        self.phase_again(config, me, phase, ranges);
    }
}
