ghost use Rattle.std.specs.Prelude.{◌≡◌, ◌≤◌, map};
ghost use Rattle.fabric_steward.specs.Noted.{noted, partition_commanded, partition_of, partition_prepared};
ghost use Rattle.fabric_steward.specs.Noted.{partition_told, told_at, unit_told, unit_told_of, units_noted};

use crate::steward::Steward;
use crate::unit_watch::UnitWatch;
use fabric_terms::{Body, Command, Report};
use ring_points::MAX_LEASE;
use ring_rules::Input;

fn partition_prepared(body: &Body) -> Option<u16>
    ensures { result ≡ partition_prepared body.now }
{
    match body {
        Body::Prepared { partition, .. } => Some(*partition),
        _ => None,
    }
}

fn partition_commanded(command: &Command) -> Option<u16>
    ensures { result ≡ partition_commanded command.now }
{
    match command {
        Command::Create(partition, _) | Command::Heal(partition, _) => Some(*partition),
        _ => None,
    }
}

/// The partition of which a refusal in a step with this input speaks.
fn partition_of(input: &Input) -> Option<u16>
    ensures { result ≡ partition_of input.now }
{
    match input {
        Input::Fire => None,
        Input::Frame(message) => partition_prepared(&message.body),
        Input::Do(command) => partition_commanded(command),
    }
}

/// The partition of which a report speaks.
fn partition_told(about: Option<u16>, report: &Report) -> Option<u16>
    ensures { result ≡ partition_told about report.now }
{
    match report {
        Report::Configured(partition, _) | Report::Superseded(partition, _) => Some(*partition),
        Report::Refused(_, _) => about,
        _ => None,
    }
}

/// What a report says of its partition.
fn told(lease: u64, report: &Report, unit: UnitWatch) -> UnitWatch
    requires { lease ≤ MAX_LEASE }
    ensures { result ≡ unit_told lease report.now unit }
{
    match report {
        Report::Configured(_, _) => unit.configured(lease),
        Report::Superseded(_, _) => unit.superseded(lease),
        Report::Refused(_, reason) => unit.refused(lease, *reason),
        _ => unit,
    }
}

/// What a report that speaks of a partition says of this one.
fn told_of(partition: u16, lease: u64, report: &Report, unit: UnitWatch) -> UnitWatch
    requires { lease ≤ MAX_LEASE }
    ensures { result ≡ unit_told_of partition lease report.now unit }
{
    if unit.partition == partition {
        told(lease, report, unit)
    } else {
        unit
    }
}

fn tell_units(partition: u16, lease: u64, report: &Report, units: &mut Vec<UnitWatch>)
    requires { lease ≤ MAX_LEASE }
    ensures { units.new.items ≡ map (unit_told_of partition lease report.now) units.old.items }
{
    for unit in units.iter_mut() {
        *unit = told_of(partition, lease, report, *unit);
    }
}

fn tell(about: Option<u16>, lease: u64, report: &Report, units: &mut Vec<UnitWatch>)
    requires { lease ≤ MAX_LEASE }
    ensures { units.new.items ≡ told_at about lease report.now units.old.items }
{
    if let Some(partition) = about {
        tell_units(partition, lease, report, units);
    }
}

fn tell_all(lease: u64, about: Option<u16>, told: &[Report], units: &mut Vec<UnitWatch>)
    requires { lease ≤ MAX_LEASE }
    ensures { units.new.items ≡ units_noted lease about told.now units.old.items }
{
    for report in told {
        tell(partition_told(about, report), lease, report, units);
    }
}

impl Steward {
    /// Takes in a step of the node: what came, and what it reported.
    pub fn note(&mut self, input: &Input, told: &[Report])
        ensures { self.new ≡ noted input.now told.now self.old }
    {
        tell_all(self.lease, partition_of(input), told, &mut self.units);
    }
}
