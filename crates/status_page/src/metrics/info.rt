ghost use Rattle.std.specs.Prelude.{◌≡◌, ◌++◌, OnOk};
ghost use Rattle.status_page.specs.Metrics.{info_labels, info_metrics};

use crate::counts::Counts;
use crate::family::{Family, Kind, push_head};
use crate::sample::{Measure, push_end};
use door_lines::{push_hex, push_number_behind};
use fabric_terms::OutOfMemory;
use text_fields::push_bytes;

#[tactic(auto, unfolding(crate::specs::Metrics::info_labels))]
fn push_labels(into: &mut Vec<u8>, counts: &Counts) -> Result<(), OutOfMemory>
    ensures { OnOk result (into.new.items ≡ into.old.items ++ info_labels counts.now) }
{
    push_bytes(into, b"{checksum=\"")?;
    push_hex(into, &counts.checksum)?;
    push_bytes(into, b"\",version=\"")?;
    push_bytes(into, &counts.version)?;
    push_number_behind(into, b"\",instance=\"", u64::from(counts.instance))?;
    push_bytes(into, b"\"}")
}

/// Appends which configuration, program and instance this is.
#[tactic(auto, unfolding(crate::specs::Metrics::info_metrics, crate::specs::Samples::sample_text))]
pub fn push_info_metrics(into: &mut Vec<u8>, counts: &Counts) -> Result<(), OutOfMemory>
    ensures { OnOk result (into.new.items ≡ into.old.items ++ info_metrics counts.now) }
{
    push_head(
        into,
        Family {
            kind: Kind::Gauge,
            name: b"config_info",
            help: b"The configuration, the program and the instance.",
        },
    )?;
    push_bytes(into, b"fabricd_config_info")?;
    push_labels(into, counts)?;
    push_end(into, Measure::Count, 1)
}
