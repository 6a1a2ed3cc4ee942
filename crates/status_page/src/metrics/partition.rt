ghost use Rattle.std.specs.Prelude.{◌≡◌, ◌++◌, OnOk};
ghost use Rattle.status_page.specs.Metrics.{changing_family, committed_family, entries_family};
ghost use Rattle.status_page.specs.Metrics.{manager_family, partition_metrics, roles_family, split_family};

use crate::counters::Counters;
use crate::counts::Counts;
use crate::family::{Family, Kind, push_by_partition, push_by_word, push_single};
use crate::sample::Measure;
use crate::words::role_words;
use fabric_terms::OutOfMemory;

#[tactic(auto, unfolding(crate::specs::Metrics::roles_family))]
fn push_roles(into: &mut Vec<u8>, counts: &Counts) -> Result<(), OutOfMemory>
    ensures { OnOk result (into.new.items ≡ into.old.items ++ roles_family counts.now) }
{
    push_by_word(
        into,
        Family {
            kind: Kind::Gauge,
            name: b"replicas",
            help: b"Replicas, by their role.",
        },
        b"role",
        &role_words(),
        &counts.replicas,
    )
}

#[tactic(auto, unfolding(crate::specs::Metrics::entries_family))]
fn push_entries(into: &mut Vec<u8>, counts: &Counts) -> Result<(), OutOfMemory>
    ensures { OnOk result (into.new.items ≡ into.old.items ++ entries_family counts.now) }
{
    push_by_partition(
        into,
        b"entries",
        b"Entries of the own log.",
        Measure::Count,
        &counts.entries,
    )
}

#[tactic(auto, unfolding(crate::specs::Metrics::committed_family))]
fn push_committed(into: &mut Vec<u8>, counts: &Counts) -> Result<(), OutOfMemory>
    ensures { OnOk result (into.new.items ≡ into.old.items ++ committed_family counts.now) }
{
    push_by_partition(
        into,
        b"committed",
        b"Committed entries, as a primary.",
        Measure::Count,
        &counts.committed,
    )
}

#[tactic(auto, unfolding(crate::specs::Metrics::changing_family))]
fn push_changing(into: &mut Vec<u8>, counts: &Counts) -> Result<(), OutOfMemory>
    ensures { OnOk result (into.new.items ≡ into.old.items ++ changing_family counts.now) }
{
    push_by_partition(
        into,
        b"reconfiguration_seconds",
        b"Age of a reconfiguration that is under way.",
        Measure::Ticks,
        &counts.changing,
    )
}

#[tactic(auto, unfolding(crate::specs::Metrics::manager_family))]
fn push_manager(into: &mut Vec<u8>, counts: &Counts) -> Result<(), OutOfMemory>
    ensures { OnOk result (into.new.items ≡ into.old.items ++ manager_family counts.now) }
{
    push_single(
        into,
        Family {
            kind: Kind::Gauge,
            name: b"without_manager_seconds",
            help: b"Time since point 0 was last held here or found.",
        },
        Measure::Ticks,
        counts.without_manager,
    )
}

#[tactic(auto, unfolding(crate::specs::Metrics::split_family))]
fn push_split(into: &mut Vec<u8>, counters: &Counters) -> Result<(), OutOfMemory>
    ensures { OnOk result (into.new.items ≡ into.old.items ++ split_family counters.now) }
{
    push_single(
        into,
        Family {
            kind: Kind::Counter,
            name: b"split_grants_total",
            help: b"Claims granted in a round above 1.",
        },
        Measure::Count,
        counters.split_grants,
    )
}

/// Appends the numbers of partitions.
#[tactic(auto, unfolding(crate::specs::Metrics::partition_metrics))]
pub fn push_partition_metrics(into: &mut Vec<u8>, counts: &Counts) -> Result<(), OutOfMemory>
    ensures { OnOk result (into.new.items ≡ into.old.items ++ partition_metrics counts.now) }
{
    push_roles(into, counts)?;
    push_entries(into, counts)?;
    push_committed(into, counts)?;
    push_changing(into, counts)?;
    push_manager(into, counts)?;
    push_split(into, &counts.counters)
}
