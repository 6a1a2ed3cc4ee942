ghost use Rattle.std.specs.Prelude.{◌≡◌, ◌++◌, OnOk};
ghost use Rattle.status_page.specs.Metrics.{client_metrics, connections_family, dropped_family, held_family};
ghost use Rattle.status_page.specs.Metrics.{log_family, longest_family, watchers_family};

use crate::counters::Counters;
use crate::counts::Counts;
use crate::family::{Family, Kind, push_single};
use crate::sample::Measure;
use fabric_terms::OutOfMemory;

#[tactic(auto, unfolding(crate::specs::Metrics::longest_family))]
fn push_longest(into: &mut Vec<u8>, counters: &Counters) -> Result<(), OutOfMemory>
    ensures { OnOk result (into.new.items ≡ into.old.items ++ longest_family counters.now) }
{
    push_single(
        into,
        Family {
            kind: Kind::Gauge,
            name: b"longest_turn_seconds",
            help: b"The longest turn.",
        },
        Measure::Ticks,
        counters.longest_turn,
    )
}

#[tactic(auto, unfolding(crate::specs::Metrics::connections_family))]
fn push_connections(into: &mut Vec<u8>, counts: &Counts) -> Result<(), OutOfMemory>
    ensures { OnOk result (into.new.items ≡ into.old.items ++ connections_family counts.now) }
{
    push_single(
        into,
        Family {
            kind: Kind::Gauge,
            name: b"connections",
            help: b"Clients of the door.",
        },
        Measure::Count,
        counts.connections,
    )
}

#[tactic(auto, unfolding(crate::specs::Metrics::watchers_family))]
fn push_watchers(into: &mut Vec<u8>, counts: &Counts) -> Result<(), OutOfMemory>
    ensures { OnOk result (into.new.items ≡ into.old.items ++ watchers_family counts.now) }
{
    push_single(
        into,
        Family {
            kind: Kind::Gauge,
            name: b"watchers",
            help: b"Clients that watch.",
        },
        Measure::Count,
        counts.watchers,
    )
}

#[tactic(auto, unfolding(crate::specs::Metrics::dropped_family))]
fn push_dropped(into: &mut Vec<u8>, counters: &Counters) -> Result<(), OutOfMemory>
    ensures { OnOk result (into.new.items ≡ into.old.items ++ dropped_family counters.now) }
{
    push_single(
        into,
        Family {
            kind: Kind::Counter,
            name: b"connections_dropped_total",
            help: b"Clients that did not read, or were past a limit.",
        },
        Measure::Count,
        counters.clients_dropped,
    )
}

#[tactic(auto, unfolding(crate::specs::Metrics::log_family))]
fn push_log(into: &mut Vec<u8>, counters: &Counters) -> Result<(), OutOfMemory>
    ensures { OnOk result (into.new.items ≡ into.old.items ++ log_family counters.now) }
{
    push_single(
        into,
        Family {
            kind: Kind::Counter,
            name: b"log_lines_dropped_total",
            help: b"Lines of the log dropped.",
        },
        Measure::Count,
        counters.log_lines_dropped,
    )
}

#[tactic(auto, unfolding(crate::specs::Metrics::held_family))]
fn push_held(into: &mut Vec<u8>, counts: &Counts) -> Result<(), OutOfMemory>
    ensures { OnOk result (into.new.items ≡ into.old.items ++ held_family counts.now) }
{
    push_single(
        into,
        Family {
            kind: Kind::Gauge,
            name: b"held_frames",
            help: b"Frames that wait for a parent.",
        },
        Measure::Count,
        counts.held_frames,
    )
}

/// Appends the numbers of clients.
#[tactic(auto, unfolding(crate::specs::Metrics::client_metrics))]
pub fn push_client_metrics(into: &mut Vec<u8>, counts: &Counts) -> Result<(), OutOfMemory>
    ensures { OnOk result (into.new.items ≡ into.old.items ++ client_metrics counts.now) }
{
    push_longest(into, &counts.counters)?;
    push_connections(into, counts)?;
    push_watchers(into, counts)?;
    push_dropped(into, &counts.counters)?;
    push_log(into, &counts.counters)?;
    push_held(into, counts)
}
