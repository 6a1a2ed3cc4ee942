// When a pause or a time of the policy is over next.
ghost use Rattle.std.specs.Prelude.{◌≡◌, ◌≤◌};
ghost use Rattle.fabric_steward.specs.Dues.{due, node_due, nodes_due, own_due, sooner, sooner_after, unit_due, units_due};

use crate::node_watch::NodeWatch;
use crate::steward::Steward;
use crate::times::{later, look_time};
use crate::unit_watch::UnitWatch;
use ring_points::MAX_LEASE;

/// The sooner of two readings, if the first is still to come.
fn sooner(now: u64, reading: u64, due: u64) -> u64
    ensures { result ≡ sooner now reading due }
{
    if now < reading { reading.min(due) } else { due }
}

fn sooner_after(now: u64, ticks: u64, then: Option<u64>, due: u64) -> u64
    ensures { result ≡ sooner_after now ticks then due }
{
    match then {
        None => due,
        Some(then) => sooner(now, later(then, ticks), due),
    }
}

fn node_due(now: u64, lease: u64, node: &NodeWatch, due: u64) -> u64
    requires { lease ≤ MAX_LEASE }
    ensures { result ≡ node_due now lease node.now due }
{
    let asked = sooner_after(now, lease, node.asked, due);
    sooner_after(now, lease * 2, node.greeted, asked)
}

fn nodes_due(now: u64, lease: u64, nodes: &[NodeWatch], due: u64) -> u64
    requires { lease ≤ MAX_LEASE }
    ensures { result ≡ nodes_due now lease nodes.now due }
{
    let mut soonest = due;
    for node in nodes {
        soonest = node_due(now, lease, node, soonest);
    }
    soonest
}

fn unit_due(now: u64, lease: u64, heal_after: u64, unit: &UnitWatch, due: u64) -> u64
    requires { lease ≤ MAX_LEASE }
    ensures { result ≡ unit_due now lease heal_after unit.now due }
{
    let missed = sooner_after(now, heal_after, unit.missed, due);
    let few = sooner_after(now, heal_after, unit.few, missed);
    let down = sooner_after(now, heal_after, unit.down, few);
    let held_up = sooner_after(now, lease * 2, unit.commanded, down);
    sooner_after(now, unit.pause, unit.commanded, held_up)
}

fn units_due(now: u64, lease: u64, heal_after: u64, units: &[UnitWatch], due: u64) -> u64
    requires { lease ≤ MAX_LEASE }
    ensures { result ≡ units_due now lease heal_after units.now due }
{
    let mut soonest = due;
    for unit in units {
        soonest = unit_due(now, lease, heal_after, unit, soonest);
    }
    soonest
}

impl Steward {
    /// Those of the policy itself.
    fn own_due(&self, now: u64) -> u64
        ensures { result ≡ own_due now self.now }
    {
        let looked = look_time(self.lease, self.heal_after);
        let managed = sooner_after(now, looked, self.manages_since, u64::MAX);
        let asked = sooner_after(now, self.lease * 2, self.manager_asked, managed);
        sooner(now, self.join_due, asked)
    }

    /// The first reading after this one at which something is over that the policy waits for; the greatest one if it
    /// waits for nothing.
    pub fn due(&self, now: u64) -> u64
        ensures { result ≡ due now self.now }
    {
        let asked = nodes_due(now, self.lease, self.nodes.as_slice(), self.own_due(now));
        units_due(
            now,
            self.lease,
            self.heal_after,
            self.units.as_slice(),
            asked,
        )
    }
}
