// The first step of a node that leaves: its partitions keep a majority, and its primaries move.
ghost use Rattle.std.specs.Prelude.{◌≡◌, ◌==◌, find};
ghost use Rattle.std.specs.List.{list_any};
ghost use Rattle.std.specs.Option.{option_copied};
ghost use Rattle.fabric_steward.specs.Departures.{heir_by, heir_of, is_ready, is_ready_to_place, is_to_move};
ghost use Rattle.fabric_steward.specs.Departures.{is_to_place, is_to_swap, least_up, least_with, loses_by, loses_in};
ghost use Rattle.fabric_steward.specs.Departures.{others_up, place_now, swap_now, unit_step};
ghost use Rattle.fabric_steward.specs.Domains.{domains_up};

use crate::departure::Departure;
use crate::domains::domains_up;
use crate::known::Known;
use crate::leaving::Leaving;
use crate::rules::count_for;
use crate::times::{first_pause, is_over};
use crate::unit_watch::UnitWatch;
use ring_points::Config;

/// So many members have a majority without any one of them.
pub const MIN_SPARED: u8 = 3;

/// How many of the other members are up.
fn others_up<K: Known>(known: &K, now: u64, me: u16, members: &[u16]) -> usize
    ensures { result ≡ others_up (K.facts known.now) now me members.now }
{
    members
        .iter()
        .filter(|node| **node != me && known.is_up(**node, now))
        .count()
}

fn is_among(node: u16, members: &[u16]) -> bool
    ensures { result ≡ list_any (λ n. n == node) members.now }
{
    members.iter().any(|other| *other == node)
}

/// Whether this node is a member, and no majority of the members is up without it.
fn loses_in<K: Known>(known: &K, now: u64, me: u16, members: &[u16]) -> bool
    ensures { result ≡ loses_in (K.facts known.now) now me members.now }
{
    is_among(me, members) && others_up(known, now, me, members) <= members.len() / 2
}

/// Whether it is so of the members of this configuration.
fn loses_by<K: Known>(known: &K, now: u64, me: u16, config: Option<&Config>) -> bool
    ensures { result ≡ loses_by (K.facts known.now) now me (option_copied config.entry) }
{
    match config {
        None => false,
        Some(config) => loses_in(known, now, me, config.members.as_slice()),
    }
}

fn least_with(node: u16, other: Option<u16>) -> u16
    ensures { result ≡ least_with node other }
{
    match other {
        None => node,
        Some(other) => node.min(other),
    }
}

/// The least other node of these that is up.
fn least_up<K: Known>(known: &K, now: u64, me: u16, nodes: &[u16]) -> Option<u16>
    ensures { result ≡ least_up (K.facts known.now) now me nodes.now }
{
    let mut least = None;
    let mut place = nodes.len();
    while place > 0 {
        place -= 1;
        let node = nodes[place];
        if node != me && known.is_up(node, now) {
            least = Some(least_with(node, least));
        }
    }
    least
}

/// To whom a partition with this configuration is to move, if this node is its primary.
fn heir_by<K: Known>(known: &K, now: u64, me: u16, config: Option<&Config>) -> Option<u16>
    ensures { result ≡ heir_by (K.facts known.now) now me (option_copied config.entry) }
{
    match config {
        Some(config) if config.primary == me => {
            least_up(known, now, me, config.members.as_slice())
        }
        _ => None,
    }
}

impl Departure {
    /// The partitions keep a majority and the primaries move, while the node manages and for half a lease at most.
    pub(crate) fn unit_step<K: Known>(&self, known: &K, now: u64, domains: usize) -> Option<Leaving>
        ensures { result ≡ unit_step (K.facts known.now) now domains self.now }
    {
        if !known.manages(now) || is_over(now, self.lease / 2, Some(self.begun)) {
            return None;
        }
        if let Some(next) = self.place_now(known, now, domains) {
            return Some(next);
        }
        if let Some(next) = self.swap_now(known, now) {
            return Some(next);
        }
        if self.has_to_place(known, now, domains) || self.has_to_move(known, now) {
            Some(Leaving::Rest)
        } else {
            None
        }
    }

    fn place_now<K: Known>(&self, known: &K, now: u64, domains: usize) -> Option<Leaving>
        ensures { result ≡ place_now (K.facts known.now) now domains self.now }
    {
        match self.unit_to_place(known, now, domains) {
            None => None,
            Some(unit) => Some(Leaving::Place(unit.partition, count_for(domains, unit))),
        }
    }

    fn unit_to_place<K: Known>(&self, known: &K, now: u64, domains: usize) -> Option<&UnitWatch>
        ensures { option_copied result ≡ find (is_ready_to_place (K.facts known.now) now domains self.now) self.now.units }
    {
        self.units
            .iter()
            .find(|unit| self.is_ready_to_place(known, now, domains, unit))
    }

    fn has_to_place<K: Known>(&self, known: &K, now: u64, domains: usize) -> bool
        ensures { result ≡ list_any (is_to_place (K.facts known.now) now domains self.now) self.now.units }
    {
        self.units
            .iter()
            .any(|unit| self.is_to_place(known, now, domains, unit))
    }

    fn is_ready_to_place<K: Known>(
        &self,
        known: &K,
        now: u64,
        domains: usize,
        unit: &UnitWatch,
    ) -> bool
        ensures { result ≡ is_ready_to_place (K.facts known.now) now domains self.now unit.now }
    {
        self.is_to_place(known, now, domains, unit) && self.is_ready(known, now, unit)
    }

    /// A placement cannot leave a node out that is up. But one of three members that are up keeps a majority without
    /// this node.
    fn is_to_place<K: Known>(&self, known: &K, now: u64, domains: usize, unit: &UnitWatch) -> bool
        ensures { result ≡ is_to_place (K.facts known.now) now domains self.now unit.now }
    {
        MIN_SPARED <= count_for(domains, unit)
            && loses_by(known, now, self.me, known.config_of(unit.partition))
    }

    /// Nothing of the partition is under way, and its pause is over.
    fn is_ready<K: Known>(&self, known: &K, now: u64, unit: &UnitWatch) -> bool
        ensures { result ≡ is_ready (K.facts known.now) now self.now unit.now }
    {
        !known.is_changing(unit.partition) && is_over(now, first_pause(self.lease), unit.commanded)
    }

    fn swap_now<K: Known>(&self, known: &K, now: u64) -> Option<Leaving>
        ensures { result ≡ swap_now (K.facts known.now) now self.now }
    {
        let Some(unit) = self.unit_to_swap(known, now) else {
            return None;
        };
        match self.heir_of(known, now, unit) {
            None => None,
            Some(node) => Some(Leaving::Swap(unit.partition, node)),
        }
    }

    fn unit_to_swap<K: Known>(&self, known: &K, now: u64) -> Option<&UnitWatch>
        ensures { option_copied result ≡ find (is_to_swap (K.facts known.now) now self.now) self.now.units }
    {
        self.units
            .iter()
            .find(|unit| self.is_to_swap(known, now, unit))
    }

    fn has_to_move<K: Known>(&self, known: &K, now: u64) -> bool
        ensures { result ≡ list_any (is_to_move (K.facts known.now) now self.now) self.now.units }
    {
        self.units
            .iter()
            .any(|unit| self.is_to_move(known, now, unit))
    }

    fn is_to_swap<K: Known>(&self, known: &K, now: u64, unit: &UnitWatch) -> bool
        ensures { result ≡ is_to_swap (K.facts known.now) now self.now unit.now }
    {
        self.is_to_move(known, now, unit) && self.is_ready(known, now, unit)
    }

    fn is_to_move<K: Known>(&self, known: &K, now: u64, unit: &UnitWatch) -> bool
        ensures { result ≡ is_to_move (K.facts known.now) now self.now unit.now }
    {
        self.heir_of(known, now, unit).is_some()
    }

    fn heir_of<K: Known>(&self, known: &K, now: u64, unit: &UnitWatch) -> Option<u16>
        ensures { result ≡ heir_of (K.facts known.now) now self.now unit.now }
    {
        heir_by(known, now, self.me, known.config_of(unit.partition))
    }
}
