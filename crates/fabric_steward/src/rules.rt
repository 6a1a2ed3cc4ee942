// The rules of the policy, in the order of their table.
ghost use Rattle.std.specs.Prelude.{◌≡◌, find};
ghost use Rattle.std.specs.Option.{option_copied};
ghost use Rattle.fabric_steward.specs.Rules.{advice_in, began_again, count_for, create_rule, has_cause, heal_rule};
ghost use Rattle.fabric_steward.specs.Rules.{is_being_learnt, is_free, is_learning, is_long, is_lost, is_to_create};
ghost use Rattle.fabric_steward.specs.Rules.{is_to_heal, is_to_learn, join_rule, learn_rule, look_rule, manager_rule, under_way};

use crate::advice::{Advice, Deed};
use crate::known::Known;
use crate::node_watch::NodeWatch;
use crate::steward::Steward;
use crate::times::{is_over, lasts, look_time};
use crate::unit_watch::UnitWatch;
use ring_points::Who;

/// A further heal begins only while fewer reconfigurations of the policy than this are under way.
pub const MAX_AT_ONCE: usize = 8;

/// Whether no reconfiguration of the partition is under way, and its pause is over.
fn is_free<K: Known>(known: &K, now: u64, unit: &UnitWatch) -> bool
    ensures { result ≡ is_free (K.facts known.now) now unit.now }
{
    !known.is_changing(unit.partition) && is_over(now, unit.pause, unit.commanded)
}

/// How many replicas there can be.
pub(crate) fn count_for(domains: usize, unit: &UnitWatch) -> u8
    ensures { result ≡ count_for domains unit.now }
{
    1.max(domains.min(unit.replicas as usize) as u8)
}

/// Whether the node of the primary was heard in another instance than this one.
fn began_again<K: Known>(known: &K, served_by: Option<Who>) -> bool
    ensures { result ≡ began_again (K.facts known.now) served_by }
{
    let Some(who) = served_by else {
        return false;
    };
    match known.heard(who.actor, 0) {
        None => false,
        Some(now) => now.instance != who.instance,
    }
}

/// Whether the primary is down, it began again, too few members are up, or one may have missed the configuration.
fn has_cause<K: Known>(known: &K, now: u64, heal_after: u64, unit: &UnitWatch) -> bool
    ensures { result ≡ has_cause (K.facts known.now) now heal_after unit.now }
{
    lasts(now, heal_after, unit.down)
        || began_again(known, unit.served_by)
        || lasts(now, heal_after, unit.few)
        || lasts(now, heal_after, unit.missed)
}

impl Steward {
    /// What the first rule wants that applies. In so many domains a node is up.
    pub(crate) fn advice<K: Known>(&self, known: &K, now: u64, domains: usize) -> Option<Advice>
        ensures { result ≡ advice_in (K.facts known.now) now domains self.now }
    {
        if let Some(advice) = self.join_rule(known, now) {
            return Some(advice);
        }
        if let Some(advice) = self.look_rule(known, now) {
            return Some(advice);
        }
        if let Some(advice) = self.greet_rule(known, now, domains) {
            return Some(advice);
        }
        if let Some(advice) = self.manager_rule(known, now) {
            return Some(advice);
        }
        if let Some(advice) = self.create_rule(known, now, domains) {
            return Some(advice);
        }
        if let Some(advice) = self.learn_rule(known, now, domains) {
            return Some(advice);
        }
        self.heal_rule(known, now, domains)
    }

    /// The node does not route, and the time of the next node has come.
    fn join_rule<K: Known>(&self, known: &K, now: u64) -> Option<Advice>
        ensures { result ≡ join_rule (K.facts known.now) now self.now }
    {
        if known.routes() || now < self.join_due {
            return None;
        }
        match self.joins.get(self.turn) {
            None => None,
            Some(node) => Some(Advice::Join(*node)),
        }
    }

    /// The node manages, and another node is lost.
    fn look_rule<K: Known>(&self, known: &K, now: u64) -> Option<Advice>
        ensures { result ≡ look_rule (K.facts known.now) now self.now }
    {
        if !known.manages(now) {
            return None;
        }
        match self.lost_node(known, now) {
            None => None,
            Some(node) => Some(Advice::Look(node.point)),
        }
    }

    fn lost_node<K: Known>(&self, known: &K, now: u64) -> Option<&NodeWatch>
        ensures { option_copied result ≡ find (is_lost (K.facts known.now) now self.now) self.now.nodes }
    {
        self.nodes
            .iter()
            .find(|node| self.is_lost(known, now, node))
    }

    /// Whether another node was not heard for a lease, and not asked for a lease.
    fn is_lost<K: Known>(&self, known: &K, now: u64, node: &NodeWatch) -> bool
        ensures { result ≡ is_lost (K.facts known.now) now self.now node.now }
    {
        node.node != self.me
            && known
                .heard(node.node, now.saturating_sub(self.lease))
                .is_none()
            && is_over(now, self.lease, node.asked)
    }

    /// The node routes and does not manage, and did not ask for two leases.
    fn manager_rule<K: Known>(&self, known: &K, now: u64) -> Option<Advice>
        ensures { result ≡ manager_rule (K.facts known.now) now self.now }
    {
        if known.routes()
            && !known.manages(now)
            && is_over(now, self.lease * 2, self.manager_asked)
        {
            Some(Advice::LookForManager)
        } else {
            None
        }
    }

    /// Whether the node manages long enough for the partition.
    fn is_long(&self, now: u64, domains: usize, unit: &UnitWatch) -> bool
        ensures { result ≡ is_long now domains self.now unit.now }
    {
        let looked = look_time(self.lease, self.heal_after);
        unit.replicas as usize <= domains || lasts(now, looked, self.manages_since)
    }

    /// The last answer was that there is no such partition.
    fn create_rule<K: Known>(&self, known: &K, now: u64, domains: usize) -> Option<Advice>
        ensures { result ≡ create_rule (K.facts known.now) now domains self.now }
    {
        if !known.manages(now) {
            return None;
        }
        match self.unit_to_create(known, now, domains) {
            None => None,
            Some(unit) => Some(Advice::Create(unit.partition, count_for(domains, unit))),
        }
    }

    fn unit_to_create<K: Known>(&self, known: &K, now: u64, domains: usize) -> Option<&UnitWatch>
        ensures { option_copied result ≡ find (is_to_create (K.facts known.now) now domains self.now) self.now.units }
    {
        self.units
            .iter()
            .find(|unit| self.is_to_create(known, now, domains, unit))
    }

    fn is_to_create<K: Known>(&self, known: &K, now: u64, domains: usize, unit: &UnitWatch) -> bool
        ensures { result ≡ is_to_create (K.facts known.now) now domains self.now unit.now }
    {
        unit.missing && is_free(known, now, unit) && self.is_long(now, domains, unit)
    }

    /// The partition is not learnt since the node manages, no other one is being learnt, and few reconfigurations are
    /// under way.
    fn learn_rule<K: Known>(&self, known: &K, now: u64, domains: usize) -> Option<Advice>
        ensures { result ≡ learn_rule (K.facts known.now) now domains self.now }
    {
        if !known.manages(now) || self.is_learning(now) || MAX_AT_ONCE <= self.under_way() {
            return None;
        }
        match self.unit_to_learn(known, now, domains) {
            None => None,
            Some(unit) => Some(Advice::Learn(unit.partition, count_for(domains, unit))),
        }
    }

    fn unit_to_learn<K: Known>(&self, known: &K, now: u64, domains: usize) -> Option<&UnitWatch>
        ensures { option_copied result ≡ find (is_to_learn (K.facts known.now) now domains self.now) self.now.units }
    {
        self.units
            .iter()
            .find(|unit| self.is_to_learn(known, now, domains, unit))
    }

    fn is_to_learn<K: Known>(&self, known: &K, now: u64, domains: usize, unit: &UnitWatch) -> bool
        ensures { result ≡ is_to_learn (K.facts known.now) now domains self.now unit.now }
    {
        !unit.learnt && is_free(known, now, unit) && self.is_long(now, domains, unit)
    }

    /// Whether a learning heal of the partition is under way, and began within two leases.
    fn is_being_learnt(&self, now: u64, unit: &UnitWatch) -> bool
        ensures { result ≡ is_being_learnt now self.now unit.now }
    {
        matches!(unit.deed, Some(Deed::Learn)) && !is_over(now, self.lease * 2, unit.commanded)
    }

    fn is_learning(&self, now: u64) -> bool
        ensures { result ≡ is_learning now self.now }
    {
        self.units
            .iter()
            .any(|unit| self.is_being_learnt(now, unit))
    }

    /// The partition is learnt and has a cause, and few reconfigurations are under way.
    fn heal_rule<K: Known>(&self, known: &K, now: u64, domains: usize) -> Option<Advice>
        ensures { result ≡ heal_rule (K.facts known.now) now domains self.now }
    {
        if !known.manages(now) || MAX_AT_ONCE <= self.under_way() {
            return None;
        }
        match self.unit_to_heal(known, now) {
            None => None,
            Some(unit) => Some(Advice::Heal(unit.partition, count_for(domains, unit))),
        }
    }

    fn unit_to_heal<K: Known>(&self, known: &K, now: u64) -> Option<&UnitWatch>
        ensures { option_copied result ≡ find (is_to_heal (K.facts known.now) now self.now) self.now.units }
    {
        self.units
            .iter()
            .find(|unit| self.is_to_heal(known, now, unit))
    }

    fn is_to_heal<K: Known>(&self, known: &K, now: u64, unit: &UnitWatch) -> bool
        ensures { result ≡ is_to_heal (K.facts known.now) now self.now unit.now }
    {
        unit.learnt && is_free(known, now, unit) && has_cause(known, now, self.heal_after, unit)
    }

    /// How many reconfigurations of the policy are under way.
    fn under_way(&self) -> usize
        ensures { result ≡ under_way self.now }
    {
        self.units.iter().filter(|unit| unit.deed.is_some()).count()
    }
}
