ghost use Rattle.std.specs.Prelude.{◌≡◌, map};
ghost use Rattle.fabric_steward.specs.Departures.{departure_of, left, left_by, node_parted, node_unasked, parting};
ghost use Rattle.fabric_steward.specs.Departures.{parting_by, point_of, unit_moved};
ghost use Rattle.fabric_steward.specs.Departures;

use crate::known::Known;
use crate::leaving::{Leaving, Parting};
use crate::linked::Linked;
use crate::node_watch::NodeWatch;
use crate::steward::Steward;
use crate::times::{first_pause, later};
use crate::unit_watch::UnitWatch;
use fabric_terms::Command;
use std::marker::Model;

/// The plan of a node that leaves, with what it remembers. Contracts see it as its `Plan`.
#[derive(Drop)]
pub struct Departure {
    pub(crate) me: u16,
    pub(crate) point: u64,
    pub(crate) lease: u64,
    pub(crate) begun: u64,
    pub(crate) gave: Option<u64>,
    pub(crate) nodes: Vec<NodeWatch>,
    pub(crate) units: Vec<UnitWatch>,
}

impl Model for Departure {
    ghost use Rattle.fabric_steward.specs.Departures.{Plan};

    ghost Value = { Plan };

    ghost view = { λ s. record {
      me = s.me;
      point = s.point;
      lease = s.lease;
      begun = s.begun;
      gave = s.gave;
      nodes = s.nodes.items;
      units = s.units.items;
    } };
}

fn point_of(me: u16, nodes: &[NodeWatch]) -> u64
    ensures { result ≡ point_of me nodes.now }
{
    for node in nodes {
        if node.node == me {
            return node.point.0;
        }
    }
    0
}

fn forget_asked(nodes: &mut Vec<NodeWatch>)
    ensures { nodes.new.items ≡ map node_unasked nodes.old.items }
{
    for node in nodes.iter_mut() {
        *node = node.unasked();
    }
}

fn move_units(partition: u16, now: u64, units: &mut Vec<UnitWatch>)
    ensures { units.new.items ≡ map (unit_moved partition now) units.old.items }
{
    for unit in units.iter_mut() {
        *unit = unit.moved(partition, now);
    }
}

fn part_nodes(gone: u16, now: u64, nodes: &mut Vec<NodeWatch>)
    ensures { nodes.new.items ≡ map (node_parted gone now) nodes.old.items }
{
    for node in nodes.iter_mut() {
        *node = node.parted(gone, now);
    }
}

impl Departure {
    /// The policy stops at this reading, and the node begins to leave.
    pub fn new(steward: Steward, now: u64) -> Departure
        ensures { result ≡ departure_of steward now }
    {
        let Steward {
            me,
            lease,
            mut nodes,
            units,
            ..
        } = steward;
        let point = point_of(me, nodes.as_slice());
        forget_asked(&mut nodes);
        Departure {
            me,
            point,
            lease,
            begun: now,
            gave: None,
            nodes,
            units,
        }
    }

    /// What the node does next, by the first step that is not done.
    pub fn advise<K: Known + Linked>(&mut self, known: &K, now: u64) -> Parting
        ensures parting { result ≡ parting (K.facts known.now) (K.links known.now) now self.old }
        ensures plan { self.new ≡ left (K.facts known.now) (K.links known.now) now self.old }
    {
        let next = self.leaving(known, now);
        let parting = self.parting(next, now);
        self.leave(next, now);
        parting
    }

    fn parting(&self, next: Leaving, now: u64) -> Parting
        ensures { result ≡ parting_by now self.now next }
    {
        match next {
            Leaving::Place(partition, count) => Parting::Say(Command::Heal(partition, count)),
            Leaving::Swap(partition, node) => Parting::Say(Command::Swap(partition, node)),
            Leaving::Give(node) => Parting::Say(Command::GiveAll(node)),
            Leaving::Part(node) => Parting::Say(Command::Part(node)),
            Leaving::Rest => Parting::Wait(self.until(now)),
            Leaving::Done => Parting::Gone,
        }
    }

    fn until(&self, now: u64) -> u64
        ensures { result ≡ Departures.until now self.now }
    {
        later(now, first_pause(self.lease)).min(later(self.begun, self.lease))
    }

    /// Keeps that this was commanded.
    fn leave(&mut self, next: Leaving, now: u64)
        ensures { self.new ≡ left_by now next self.old }
    {
        match next {
            Leaving::Place(partition, _) | Leaving::Swap(partition, _) => {
                move_units(partition, now, &mut self.units)
            }
            Leaving::Give(_) => self.gave = Some(now),
            Leaving::Part(node) => part_nodes(node, now, &mut self.nodes),
            Leaving::Rest | Leaving::Done => {}
        }
    }
}
