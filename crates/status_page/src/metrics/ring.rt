ghost use Rattle.std.specs.Prelude.{◌≡◌, ◌++◌, OnOk};
ghost use Rattle.status_page.specs.Metrics.{fence_family, links_family, manages_family, ring_metrics};
ghost use Rattle.status_page.specs.Metrics.{routing_family, sealed_family, share_family};

use crate::counts::Counts;
use crate::family::{Family, Kind, push_by_word, push_head, push_single};
use crate::sample::{Measure, push_sample};
use crate::words::link_words;
use fabric_terms::OutOfMemory;

#[tactic(auto, unfolding(crate::specs::Metrics::links_family))]
fn push_links(into: &mut Vec<u8>, counts: &Counts) -> Result<(), OutOfMemory>
    ensures { OnOk result (into.new.items ≡ into.old.items ++ links_family counts.now) }
{
    push_by_word(
        into,
        Family {
            kind: Kind::Gauge,
            name: b"links",
            help: b"Links, by their state.",
        },
        b"state",
        &link_words(),
        &counts.links,
    )
}

#[tactic(auto, unfolding(crate::specs::Metrics::share_family))]
fn push_share(into: &mut Vec<u8>, counts: &Counts) -> Result<(), OutOfMemory>
    ensures { OnOk result (into.new.items ≡ into.old.items ++ share_family counts.now) }
{
    push_single(
        into,
        Family {
            kind: Kind::Gauge,
            name: b"ring_share",
            help: b"The share of the ring that the node owns.",
        },
        Measure::Millionths,
        counts.share,
    )
}

#[tactic(auto, unfolding(crate::specs::Metrics::fence_family))]
fn push_fence(into: &mut Vec<u8>, counts: &Counts) -> Result<(), OutOfMemory>
    ensures { OnOk result (into.new.items ≡ into.old.items ++ fence_family counts.now) }
{
    push_head(
        into,
        Family {
            kind: Kind::Gauge,
            name: b"fence_left_seconds",
            help: b"The fence less the reading.",
        },
    )?;
    match counts.fence_left {
        None => Ok(()),
        Some(ticks) => push_sample(into, b"fence_left_seconds", Measure::Ticks, ticks),
    }
}

#[tactic(auto, unfolding(crate::specs::Metrics::routing_family))]
fn push_routing(into: &mut Vec<u8>, counts: &Counts) -> Result<(), OutOfMemory>
    ensures { OnOk result (into.new.items ≡ into.old.items ++ routing_family counts.now) }
{
    push_single(
        into,
        Family {
            kind: Kind::Gauge,
            name: b"routing",
            help: b"Whether the node routes.",
        },
        Measure::Count,
        u64::from(counts.routing),
    )
}

#[tactic(auto, unfolding(crate::specs::Metrics::manages_family))]
fn push_manages(into: &mut Vec<u8>, counts: &Counts) -> Result<(), OutOfMemory>
    ensures { OnOk result (into.new.items ≡ into.old.items ++ manages_family counts.now) }
{
    push_single(
        into,
        Family {
            kind: Kind::Gauge,
            name: b"manages",
            help: b"Whether the node manages.",
        },
        Measure::Count,
        u64::from(counts.manages),
    )
}

#[tactic(auto, unfolding(crate::specs::Metrics::sealed_family))]
fn push_sealed(into: &mut Vec<u8>, counts: &Counts) -> Result<(), OutOfMemory>
    ensures { OnOk result (into.new.items ≡ into.old.items ++ sealed_family counts.now) }
{
    push_single(
        into,
        Family {
            kind: Kind::Gauge,
            name: b"sealed",
            help: b"Whether frames are sealed.",
        },
        Measure::Count,
        u64::from(counts.sealed),
    )
}

/// Appends the numbers of the ring.
#[tactic(auto, unfolding(crate::specs::Metrics::ring_metrics))]
pub fn push_ring_metrics(into: &mut Vec<u8>, counts: &Counts) -> Result<(), OutOfMemory>
    ensures { OnOk result (into.new.items ≡ into.old.items ++ ring_metrics counts.now) }
{
    push_links(into, counts)?;
    push_share(into, counts)?;
    push_fence(into, counts)?;
    push_routing(into, counts)?;
    push_manages(into, counts)?;
    push_sealed(into, counts)
}
