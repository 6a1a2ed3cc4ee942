ghost use Rattle.std.specs.Prelude.{◌≡◌, ◌<◌, ◌++◌, [], OnOk, codes, decimal};
ghost use Rattle.status_page.specs.Samples.{end_text, label_front, label_text, partition_sample};
ghost use Rattle.status_page.specs.Samples.{sample_text, three_digits, value_text};

use crate::counts::PartitionGauge;
use fabric_terms::OutOfMemory;
use text_fields::{push_bytes, push_number};

/// How a number is written.
#[derive(Clone, Copy, Debug, PartialEq, Eq)]
pub enum Measure {
    /// As it is.
    Count,
    /// Ticks, in seconds.
    Ticks,
    /// Millionths, as a fraction.
    Millionths,
}

/// Appends three digits.
fn push_three(into: &mut Vec<u8>, n: u64) -> Result<(), OutOfMemory>
    requires { n < 1000 }
    ensures { OnOk result (into.new.items ≡ into.old.items ++ three_digits n) }
{
    let hundreds = b'0' + (n / 100) as u8;
    let tens = b'0' + (n / 10 % 10) as u8;
    let ones = b'0' + (n % 10) as u8;
    push_bytes(into, &[hundreds, tens, ones])
}

#[tactic(auto, unfolding(crate::specs::Samples::value_text))]
fn push_value(into: &mut Vec<u8>, measure: Measure, n: u64) -> Result<(), OutOfMemory>
    ensures { OnOk result (into.new.items ≡ into.old.items ++ value_text measure n) }
{
    match measure {
        Measure::Count => push_number(into, n),
        Measure::Ticks => {
            push_number(into, n / 1000)?;
            push_bytes(into, b".")?;
            push_three(into, n % 1000)
        }
        Measure::Millionths => {
            push_number(into, n / 1_000_000)?;
            push_bytes(into, b".")?;
            push_three(into, n / 1000 % 1000)?;
            push_three(into, n % 1000)
        }
    }
}

/// Appends the end of a sample: a blank, the number, and a line feed.
#[tactic(auto, unfolding(crate::specs::Samples::end_text))]
pub fn push_end(into: &mut Vec<u8>, measure: Measure, n: u64) -> Result<(), OutOfMemory>
    ensures { OnOk result (into.new.items ≡ into.old.items ++ end_text measure n) }
{
    push_bytes(into, b" ")?;
    push_value(into, measure, n)?;
    push_bytes(into, b"\n")
}

/// Appends a number behind its name.
#[tactic(auto, unfolding(crate::specs::Samples::sample_text))]
pub fn push_sample(
    into: &mut Vec<u8>,
    name: &[u8],
    measure: Measure,
    n: u64,
) -> Result<(), OutOfMemory>
    ensures { OnOk result (into.new.items ≡ into.old.items ++ sample_text name.now [] measure n) }
{
    push_bytes(into, b"fabricd_")?;
    push_bytes(into, name)?;
    push_end(into, measure, n)
}

#[tactic(auto, unfolding(crate::specs::Samples::label_front))]
fn push_label_front(into: &mut Vec<u8>, label: &[u8]) -> Result<(), OutOfMemory>
    ensures { OnOk result (into.new.items ≡ into.old.items ++ label_front label.now) }
{
    push_bytes(into, b"{")?;
    push_bytes(into, label)?;
    push_bytes(into, b"=\"")
}

#[tactic(auto, unfolding(crate::specs::Samples::label_text))]
fn push_label(into: &mut Vec<u8>, label: &[u8], word: &[u8]) -> Result<(), OutOfMemory>
    ensures { OnOk result (into.new.items ≡ into.old.items ++ label_text label.now word.now) }
{
    push_label_front(into, label)?;
    push_bytes(into, word)?;
    push_bytes(into, b"\"}")
}

/// Appends a count behind its name and the word of a label.
#[tactic(auto, unfolding(crate::specs::Samples::sample_text))]
pub fn push_labelled(
    into: &mut Vec<u8>,
    name: &[u8],
    label: &[u8],
    word: &[u8],
    n: u64,
) -> Result<(), OutOfMemory>
    ensures { OnOk result (into.new.items
        ≡ into.old.items ++ sample_text name.now (label_text label.now word.now) Measure.Count n) }
{
    push_bytes(into, b"fabricd_")?;
    push_bytes(into, name)?;
    push_label(into, label, word)?;
    push_end(into, Measure::Count, n)
}

#[tactic(auto, unfolding(crate::specs::Samples::label_text))]
fn push_partition_label(into: &mut Vec<u8>, partition: u16) -> Result<(), OutOfMemory>
    ensures { OnOk result (into.new.items
        ≡ into.old.items ++ label_text (codes "partition") (decimal partition)) }
{
    push_label_front(into, b"partition")?;
    push_number(into, u64::from(partition))?;
    push_bytes(into, b"\"}")
}

/// Appends the number of a partition.
#[tactic(auto, unfolding(crate::specs::Samples::sample_text, crate::specs::Samples::partition_sample))]
pub fn push_partition(
    into: &mut Vec<u8>,
    name: &[u8],
    measure: Measure,
    gauge: PartitionGauge,
) -> Result<(), OutOfMemory>
    ensures { OnOk result (into.new.items ≡ into.old.items ++ partition_sample name.now measure gauge) }
{
    push_bytes(into, b"fabricd_")?;
    push_bytes(into, name)?;
    push_partition_label(into, gauge.partition)?;
    push_end(into, measure, gauge.number)
}
