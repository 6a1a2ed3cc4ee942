ghost use Rattle.std.specs.Prelude.{◌≡◌, ◌++◌, OnOk};
ghost use Rattle.status_page.specs.Metrics.{frame_metrics, junk_family, received_family, record_bytes_family};
ghost use Rattle.status_page.specs.Metrics.{records_family, sent_family};

use crate::counters::Counters;
use crate::counts::Counts;
use crate::family::{Family, Kind, push_by_word, push_single};
use crate::kinds::KIND_NAMES;
use crate::sample::Measure;
use crate::words::junk_words;
use fabric_terms::OutOfMemory;

#[tactic(auto, unfolding(crate::specs::Metrics::sent_family))]
fn push_sent(into: &mut Vec<u8>, counters: &Counters) -> Result<(), OutOfMemory>
    ensures { OnOk result (into.new.items ≡ into.old.items ++ sent_family counters.now) }
{
    push_by_word(
        into,
        Family {
            kind: Kind::Counter,
            name: b"frames_sent_total",
            help: b"Frames sent.",
        },
        b"kind",
        &KIND_NAMES,
        &counters.sent,
    )
}

#[tactic(auto, unfolding(crate::specs::Metrics::received_family))]
fn push_received(into: &mut Vec<u8>, counters: &Counters) -> Result<(), OutOfMemory>
    ensures { OnOk result (into.new.items ≡ into.old.items ++ received_family counters.now) }
{
    push_by_word(
        into,
        Family {
            kind: Kind::Counter,
            name: b"frames_received_total",
            help: b"Frames received.",
        },
        b"kind",
        &KIND_NAMES,
        &counters.received,
    )
}

#[tactic(auto, unfolding(crate::specs::Metrics::junk_family))]
fn push_junk(into: &mut Vec<u8>, counters: &Counters) -> Result<(), OutOfMemory>
    ensures { OnOk result (into.new.items ≡ into.old.items ++ junk_family counters.now) }
{
    push_by_word(
        into,
        Family {
            kind: Kind::Counter,
            name: b"frames_refused_total",
            help: b"Datagrams that are no frames.",
        },
        b"why",
        &junk_words(),
        &counters.junk,
    )
}

#[tactic(auto, unfolding(crate::specs::Metrics::records_family))]
fn push_records(into: &mut Vec<u8>, counters: &Counters) -> Result<(), OutOfMemory>
    ensures { OnOk result (into.new.items ≡ into.old.items ++ records_family counters.now) }
{
    push_single(
        into,
        Family {
            kind: Kind::Counter,
            name: b"records_total",
            help: b"Records appended.",
        },
        Measure::Count,
        counters.records,
    )
}

#[tactic(auto, unfolding(crate::specs::Metrics::record_bytes_family))]
fn push_record_bytes(into: &mut Vec<u8>, counts: &Counts) -> Result<(), OutOfMemory>
    ensures { OnOk result (into.new.items ≡ into.old.items ++ record_bytes_family counts.now) }
{
    push_single(
        into,
        Family {
            kind: Kind::Gauge,
            name: b"record_bytes",
            help: b"Bytes of the file of records.",
        },
        Measure::Count,
        counts.record_bytes,
    )
}

/// Appends the numbers of frames and records.
#[tactic(auto, unfolding(crate::specs::Metrics::frame_metrics))]
pub fn push_frame_metrics(into: &mut Vec<u8>, counts: &Counts) -> Result<(), OutOfMemory>
    ensures { OnOk result (into.new.items ≡ into.old.items ++ frame_metrics counts.now) }
{
    push_sent(into, &counts.counters)?;
    push_received(into, &counts.counters)?;
    push_junk(into, &counts.counters)?;
    push_records(into, &counts.counters)?;
    push_record_bytes(into, counts)
}
