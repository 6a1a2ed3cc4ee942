ghost use Rattle.std.specs.Prelude.{◌≡◌, ◌++◌, OnOk};
ghost use Rattle.status_page.specs.Metrics.{metrics_text};

mod client;
mod frame;
mod info;
mod partition;
mod ring;
mod turn;

use crate::counts::Counts;
use client::push_client_metrics;
use fabric_terms::OutOfMemory;
use frame::push_frame_metrics;
use info::push_info_metrics;
use partition::push_partition_metrics;
use ring::push_ring_metrics;
use turn::push_turn_metrics;

/// Appends all numbers of the page.
#[tactic(auto, unfolding(crate::specs::Metrics::metrics_text))]
pub fn push_metrics(into: &mut Vec<u8>, counts: &Counts) -> Result<(), OutOfMemory>
    ensures { OnOk result (into.new.items ≡ into.old.items ++ metrics_text counts.now) }
{
    push_ring_metrics(into, counts)?;
    push_frame_metrics(into, counts)?;
    push_partition_metrics(into, counts)?;
    push_turn_metrics(into, &counts.counters)?;
    push_client_metrics(into, counts)?;
    push_info_metrics(into, counts)
}
