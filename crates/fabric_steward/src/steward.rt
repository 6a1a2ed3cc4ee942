ghost use Rattle.std.specs.Prelude.{◌≡◌, ◌≤◌, IfOk, filter, map, not, ◌==◌};
ghost use Rattle.fabric_steward.specs.Afterwards.{advised, command_given};
ghost use Rattle.fabric_steward.specs.Policies.{fresh_policy, node_watched, unit_watched};

use crate::domains::domains_up;
use crate::known::Known;
use crate::node_watch::NodeWatch;
use crate::times::first_pause;
use crate::unit_watch::UnitWatch;
use fabric_terms::{Command, FabricConfig, NodeEntry};
use ring_points::MAX_LEASE;
use service_file::{Declared, ServiceSettings};
use std::alloc::{AllocError, Global};
use std::marker::Model;

/// The policy of a served node, with what it remembers. Contracts see it as its `Policy`.
#[derive(Drop)]
pub struct Steward {
    pub(crate) me: u16,
    pub(crate) lease: u64,
    pub(crate) heal_after: u64,
    /// The other nodes to join; `turn` is the place of the next one.
    pub(crate) joins: Vec<u16>,
    pub(crate) turn: usize,
    pub(crate) join_due: u64,
    pub(crate) join_pause: u64,
    pub(crate) nodes: Vec<NodeWatch>,
    pub(crate) manager_asked: Option<u64>,
    pub(crate) manages_since: Option<u64>,
    pub(crate) units: Vec<UnitWatch>,
}

impl Model for Steward {
    ghost use Rattle.std.specs.Prelude.{◌≤◌};
    ghost use Rattle.ring_points.specs.Limits.{most_lease};
    ghost use Rattle.fabric_steward.specs.Policies.{Policy};

    ghost Value = { Policy };

    ghost view = { λ s. record {
      me = s.me;
      lease = s.lease;
      heal_after = s.heal_after;
      joins = s.joins.items;
      turn = s.turn;
      join_due = s.join_due;
      join_pause = s.join_pause;
      nodes = s.nodes.items;
      manager_asked = s.manager_asked;
      manages_since = s.manages_since;
      units = s.units.items;
    } };

    ghost invariant = { λ s. s.lease ≤ most_lease };
}

fn others(alloc: Global, joins: &[u16], me: u16) -> Result<Vec<u16>, AllocError>
    ensures { IfOk result (λ v. v.items ≡ filter (λ n. not (n == me)) joins.now) }
{
    joins
        .iter()
        .filter(|node| **node != me)
        .map(|node| *node)
        .collect(alloc)
}

fn watched_nodes(alloc: Global, nodes: &[NodeEntry]) -> Result<Vec<NodeWatch>, AllocError>
    ensures { IfOk result (λ v. v.items ≡ map node_watched nodes.now) }
{
    nodes
        .iter()
        .map(|entry| NodeWatch::new(entry))
        .collect(alloc)
}

fn watched_units(
    alloc: Global,
    lease: u64,
    units: &[Declared],
) -> Result<Vec<UnitWatch>, AllocError>
    ensures { IfOk result (λ v. v.items ≡ map (unit_watched lease) units.now) }
{
    units
        .iter()
        .map(|declared| UnitWatch::new(lease, *declared))
        .collect(alloc)
}

impl Steward {
    /// The policy of node `me`: nothing has happened yet.
    pub fn new(
        alloc: Global,
        config: &FabricConfig,
        settings: &ServiceSettings,
        me: u16,
    ) -> Result<Steward, AllocError>
        requires { config.now.lease ≤ MAX_LEASE }
        ensures { IfOk result (λ s. s ≡ fresh_policy config.now settings.now me) }
    {
        let joins = others(alloc, settings.join.as_slice(), me)?;
        let nodes = watched_nodes(alloc, config.nodes.as_slice())?;
        let units = watched_units(alloc, config.lease, settings.partitions.as_slice())?;
        Ok(Steward {
            me,
            lease: config.lease,
            heal_after: settings.heal_after,
            joins,
            turn: 0,
            join_due: 0,
            join_pause: first_pause(config.lease),
            nodes,
            manager_asked: None,
            manages_since: None,
            units,
        })
    }

    /// How many ticks after an instance has left the next one begins: the pause that the next join has.
    pub fn join_pause(&self) -> u64
        ensures { result ≡ self.now.join_pause }
    {
        self.join_pause
    }

    /// Looks at what the node knows at this reading, and gives the command of the first rule that applies.
    pub fn advise<K: Known>(&mut self, known: &K, now: u64) -> Option<Command>
        ensures command { result ≡ command_given (K.facts known.now) now self.old }
        ensures policy { self.new ≡ advised (K.facts known.now) now self.old }
    {
        let domains = domains_up(known, now, self.nodes.as_slice());
        self.observe(known, now, domains);
        match self.advice(known, now, domains) {
            None => None,
            Some(advice) => {
                self.follow(advice, now);
                Some(advice.command())
            }
        }
    }
}
