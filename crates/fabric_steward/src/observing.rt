ghost use Rattle.std.specs.Prelude.{◌≡◌, map};
ghost use Rattle.std.specs.Option.{option_copied};
ghost use Rattle.fabric_steward.specs.Domains.{domains_up};
ghost use Rattle.fabric_steward.specs.Watching.{first_heard, observed, unit_forgotten, unit_observed, unit_seen};

use crate::domains::nodes_up;
use crate::known::Known;
use crate::steward::Steward;
use crate::times::{first_pause, since};
use crate::unit_watch::UnitWatch;
use ring_points::{Config, Who};

/// The instance of the primary's node that was heard first. Another primary has another one.
fn first_heard(node: u16, heard: Option<Who>, before: Option<Who>) -> Option<Who>
    ensures { result ≡ first_heard node heard before }
{
    match before {
        Some(who) if who.actor == node => Some(who),
        _ => heard,
    }
}

/// Since when each cause of a heal stands, by the configuration that is known.
fn seen<K: Known>(
    known: &K,
    now: u64,
    domains: usize,
    config: Option<&Config>,
    unit: UnitWatch,
) -> UnitWatch
    ensures { result ≡ unit_seen (K.facts known.now) now domains (option_copied config.entry) unit }
{
    let Some(config) = config else {
        return UnitWatch {
            down: None,
            few: None,
            missed: None,
            ..unit
        };
    };
    let members = config.members.as_slice();
    let up = nodes_up(known, now, members);
    let is_few = up < unit.replicas as usize && up < domains;
    let roll = unit.roll.seen(known, now, members);
    UnitWatch {
        served_by: first_heard(
            config.primary,
            known.heard(config.primary, 0),
            unit.served_by,
        ),
        down: since(!known.is_up(config.primary, now), now, unit.down),
        few: since(is_few, now, unit.few),
        roll,
        missed: since(roll.is_missed(known, members), now, unit.missed),
        ..unit
    }
}

/// What the policy sees of a partition.
fn observed<K: Known>(known: &K, now: u64, domains: usize, unit: UnitWatch) -> UnitWatch
    ensures { result ≡ unit_observed (K.facts known.now) now domains unit }
{
    let deed = if known.is_changing(unit.partition) {
        unit.deed
    } else {
        None
    };
    seen(
        known,
        now,
        domains,
        known.config_of(unit.partition),
        UnitWatch { deed, ..unit },
    )
}

fn observe_units<K: Known>(known: &K, now: u64, domains: usize, units: &mut Vec<UnitWatch>)
    ensures { units.new.items ≡ map (unit_observed (K.facts known.now) now domains) units.old.items }
{
    for unit in units.iter_mut() {
        *unit = observed(known, now, domains, *unit);
    }
}

fn forget_units(lease: u64, units: &mut Vec<UnitWatch>)
    ensures { units.new.items ≡ map (unit_forgotten lease) units.old.items }
{
    for unit in units.iter_mut() {
        *unit = unit.forgotten(lease);
    }
}

impl Steward {
    /// Looks at what the node knows at this reading. In so many domains a node is up.
    pub(crate) fn observe<K: Known>(&mut self, known: &K, now: u64, domains: usize)
        requires { domains ≡ domains_up (K.facts known.now) now self.old.nodes }
        ensures { self.new ≡ observed (K.facts known.now) now self.old }
    {
        if known.routes() {
            self.join_pause = first_pause(self.lease);
        }
        let manages = known.manages(now);
        self.manages_since = since(manages, now, self.manages_since);
        if manages {
            observe_units(known, now, domains, &mut self.units);
        } else {
            forget_units(self.lease, &mut self.units);
        }
    }
}
