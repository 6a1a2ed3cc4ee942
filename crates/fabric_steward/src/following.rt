ghost use Rattle.std.specs.Prelude.{◌≡◌, length, map};
ghost use Rattle.fabric_steward.specs.Afterwards.{commanded, followed, joined, next_turn, node_asked};
ghost use Rattle.fabric_steward.specs.Afterwards.{node_greeted, unit_commanded};

use crate::advice::{Advice, Deed};
use crate::node_watch::NodeWatch;
use crate::steward::Steward;
use crate::times::{doubled, later};
use crate::unit_watch::UnitWatch;
use ring_points::Point;

fn ask_nodes(point: Point, now: u64, nodes: &mut Vec<NodeWatch>)
    ensures { nodes.new.items ≡ map (node_asked point now) nodes.old.items }
{
    for node in nodes.iter_mut() {
        *node = node.asked(point, now);
    }
}

fn greet_nodes(greeted: u16, now: u64, nodes: &mut Vec<NodeWatch>)
    ensures { nodes.new.items ≡ map (node_greeted greeted now) nodes.old.items }
{
    for node in nodes.iter_mut() {
        *node = node.greeted(greeted, now);
    }
}

fn command_units(partition: u16, deed: Deed, now: u64, units: &mut Vec<UnitWatch>)
    ensures { units.new.items ≡ map (unit_commanded partition deed now) units.old.items }
{
    for unit in units.iter_mut() {
        *unit = unit.commanded(partition, deed, now);
    }
}

impl Steward {
    /// Keeps that this was advised.
    pub(crate) fn follow(&mut self, advice: Advice, now: u64)
        ensures { self.new ≡ followed advice now self.old }
    {
        match advice {
            Advice::Join(_) => self.join(now),
            Advice::Look(point) => ask_nodes(point, now, &mut self.nodes),
            Advice::Greet(node) => greet_nodes(node, now, &mut self.nodes),
            Advice::LookForManager => self.manager_asked = Some(now),
            Advice::Create(partition, _) => self.command(partition, Deed::Create, now),
            Advice::Learn(partition, _) => self.command(partition, Deed::Learn, now),
            Advice::Heal(partition, _) => self.command(partition, Deed::Heal, now),
        }
    }

    /// The next node comes after the pause, which doubles.
    fn join(&mut self, now: u64)
        ensures { self.new ≡ joined now self.old }
    {
        self.turn = next_turn(self.turn, self.joins.len());
        self.join_due = later(now, self.join_pause);
        self.join_pause = doubled(self.lease, self.join_pause);
    }

    fn command(&mut self, partition: u16, deed: Deed, now: u64)
        ensures { self.new ≡ commanded partition deed now self.old }
    {
        command_units(partition, deed, now, &mut self.units);
    }
}

/// The next place in the rotation.
fn next_turn(turn: usize, count: usize) -> usize
    ensures { result ≡ next_turn turn count }
{
    if turn < count && turn + 1 < count {
        turn + 1
    } else {
        0
    }
}
