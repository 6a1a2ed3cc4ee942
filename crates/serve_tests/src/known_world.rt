//! What a node of three knows, as the tests of the policy set it, and its policy.
ghost use Rattle.std.specs.Prelude.{◌≡◌, ◌<◌, ◌==◌, not, IfOk, Some, None, if◌then◌else◌};

use drift_clock::Bound;
use fabric_steward::{Known, Linked, Steward};
use fabric_terms::{Address, Arbiters, Command, FabricConfig, NodeEntry, Nodes, OutOfMemory};
use ring_points::{Config, Epoch, Members, Point, Who};
use service_file::{Declared, DeclaredList, Joins, LineChoice, ServiceSettings};
use std::alloc::Global;

pub const EPOCH: Epoch = Epoch {
    data_loss: 0,
    configuration: 1,
};

/// All nodes are up but one, and what is known of a partition is known of each.
#[derive(Drop)]
pub struct World {
    pub routes: bool,
    pub manages: bool,
    pub down: u16,
    pub config: Option<Config>,
    pub is_changing: bool,
    pub owns: bool,
    pub is_linked: bool,
}

impl Known for World {
    ghost facts = { λ w. record {
      routes = w.routes;
      manages = λ now. w.manages;
      is_up = λ node now. not (node == w.down);
      heard = λ node since. if node == w.down then None else Some (record { actor = node; instance = 1 });
      config_of = λ partition. w.config;
      is_changing = λ partition. w.is_changing;
    } };

    fn routes(&self) -> bool {
        self.routes
    }

    fn manages(&self, _now: u64) -> bool {
        self.manages
    }

    fn is_up(&self, node: u16, _now: u64) -> bool {
        node != self.down
    }

    fn heard(&self, node: u16, _since: u64) -> Option<Who> {
        if node == self.down {
            None
        } else {
            Some(Who {
                actor: node,
                instance: 1,
            })
        }
    }

    fn config_of(&self, _partition: u16) -> Option<&Config> {
        self.config.as_ref()
    }

    fn is_changing(&self, _partition: u16) -> bool {
        self.is_changing
    }
}

impl Linked for World {
    ghost links = { λ w. record {
      owns = w.owns;
      is_giving = w.owns;
      is_bound = λ node. w.is_linked;
      is_active = λ node. w.is_linked;
    } };

    fn owns(&self) -> bool {
        self.owns
    }

    fn is_giving(&self) -> bool {
        self.owns
    }

    fn is_bound(&self, _node: u16) -> bool {
        self.is_linked
    }

    fn is_active(&self, _node: u16) -> bool {
        self.is_linked
    }
}

/// A node that manages, with all nodes up; no partition is known.
pub fn managing() -> World {
    World {
        routes: true,
        manages: true,
        down: 0,
        config: None,
        is_changing: false,
        owns: true,
        is_linked: true,
    }
}

fn config_of(primary: u16, members: Members) -> Option<Config> {
    Some(Config {
        partition: 7,
        epoch: EPOCH,
        primary,
        members,
    })
}

/// The partition with all three nodes, and this one as its primary.
pub fn led_by(primary: u16) -> Option<Config> {
    let mut members = Members::new();
    members.push(1);
    members.push(2);
    members.push(3);
    config_of(primary, members)
}

/// The partition with nodes 1 and 3, and node 3 as its primary.
pub fn led_by_two() -> Option<Config> {
    let mut members = Members::new();
    members.push(1);
    members.push(3);
    config_of(3, members)
}

fn entry(alloc: Global, node: u16) -> NodeEntry
    requires { node < 16 }
{
    NodeEntry {
        node,
        point: Point((node as u64) << 60),
        domain: node,
        at: Address::new(String::new(alloc)),
        longest: 1000,
    }
}

fn config(alloc: Global) -> Result<FabricConfig, OutOfMemory>
    ensures { IfOk result (λ c. c.lease ≡ 1000) }
{
    let mut nodes = Vec::new(alloc);
    nodes.push(entry(alloc, 1))?;
    nodes.push(entry(alloc, 2))?;
    nodes.push(entry(alloc, 3))?;
    Ok(FabricConfig {
        first: 1,
        near: 2,
        rounds: 3,
        lease: 1000,
        answer: 100,
        bound: Bound { d: 1, grain: 1 },
        nodes: Nodes::new(nodes),
        arbiters: Arbiters::new(Vec::new(alloc)),
    })
}

fn settings(alloc: Global) -> Result<ServiceSettings, OutOfMemory> {
    let mut joins = Vec::new(alloc);
    joins.push(1)?;
    joins.push(3)?;
    joins.push(2)?;
    let mut units = Vec::new(alloc);
    units.push(Declared {
        partition: 7,
        replicas: 3,
    })?;
    Ok(ServiceSettings {
        join: Joins::new(joins),
        partitions: DeclaredList::new(units),
        heal_after: 2000,
        lines: LineChoice::SomeLines,
        again: None,
    })
}

/// The policy of node 3 of three nodes, with one declared partition. The lease has 1,000 ticks, so a pause has 250.
pub fn policy(alloc: Global) -> Result<Steward, OutOfMemory> {
    let config = config(alloc)?;
    let settings = settings(alloc)?;
    Ok(Steward::new(alloc, &config, &settings, 3)?)
}

/// A command of the policy or of a plan to leave.
#[derive(Clone, Copy, Debug, PartialEq, Eq)]
pub enum Said {
    Nothing,
    Join(u16),
    Find(u64),
    Link(u16),
    Create(u16, u8),
    Heal(u16, u8),
    Swap(u16, u16),
    Give(u16),
    Part(u16),
    Other,
}

pub fn word_of(command: &Command) -> Said {
    match command {
        Command::Join(node) => Said::Join(*node),
        Command::Find(point) => Said::Find(point.0),
        Command::Link(node) => Said::Link(*node),
        Command::Create(partition, count) => Said::Create(*partition, *count),
        Command::Heal(partition, count) => Said::Heal(*partition, *count),
        Command::Swap(partition, node) => Said::Swap(*partition, *node),
        Command::GiveAll(node) => Said::Give(*node),
        Command::Part(node) => Said::Part(*node),
        _ => Said::Other,
    }
}

/// What the policy commands at this reading.
pub fn turn(policy: &mut Steward, world: &World, now: u64) -> Said {
    match policy.advise(world, now) {
        None => Said::Nothing,
        Some(command) => word_of(&command),
    }
}
