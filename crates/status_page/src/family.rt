ghost use Rattle.std.specs.Prelude.{◌≡◌, ◌++◌, OnOk, map};
ghost use Rattle.std.specs.List.{flat_map};
ghost use Rattle.status_page.specs.Samples.{by_partition_text, by_word_text, comment_text, head_text, kind_text};
ghost use Rattle.status_page.specs.Samples.{partition_sample, single_text, word_samples};

use crate::counts::PartitionGauge;
use crate::sample::{Measure, push_labelled, push_partition, push_sample};
use fabric_terms::OutOfMemory;
use text_fields::push_bytes;

/// What a number is: it only rises, or it goes up and down.
#[derive(Clone, Copy, Debug, PartialEq, Eq)]
pub enum Kind {
    Counter,
    Gauge,
}

/// A family of numbers: its type, its name behind `fabricd_`, and what it says.
#[derive(Clone, Copy)]
pub struct Family {
    pub kind: Kind,
    pub name: &'static [u8],
    pub help: &'static [u8],
}

fn kind_word(kind: Kind) -> &'static [u8]
    ensures { result.now ≡ kind_text kind }
{
    match kind {
        Kind::Counter => b"counter",
        Kind::Gauge => b"gauge",
    }
}

#[tactic(auto, unfolding(crate::specs::Samples::comment_text))]
fn push_comment(
    into: &mut Vec<u8>,
    word: &[u8],
    name: &[u8],
    text: &[u8],
) -> Result<(), OutOfMemory>
    ensures { OnOk result (into.new.items ≡ into.old.items ++ comment_text word.now name.now text.now) }
{
    push_bytes(into, b"# ")?;
    push_bytes(into, word)?;
    push_bytes(into, b" fabricd_")?;
    push_bytes(into, name)?;
    push_bytes(into, b" ")?;
    push_bytes(into, text)?;
    push_bytes(into, b"\n")
}

/// Appends what a family says, and its type.
#[tactic(auto, unfolding(crate::specs::Samples::head_text))]
pub fn push_head(into: &mut Vec<u8>, family: Family) -> Result<(), OutOfMemory>
    ensures { OnOk result (into.new.items
        ≡ into.old.items ++ head_text family.kind family.name.now family.help.now) }
{
    push_comment(into, b"HELP", family.name, family.help)?;
    push_comment(into, b"TYPE", family.name, kind_word(family.kind))
}

/// Appends a family of one number.
#[tactic(auto, unfolding(crate::specs::Samples::single_text))]
pub fn push_single(
    into: &mut Vec<u8>,
    family: Family,
    measure: Measure,
    n: u64,
) -> Result<(), OutOfMemory>
    ensures { OnOk result (into.new.items ≡ into.old.items
        ++ single_text family.kind family.name.now family.help.now measure n) }
{
    push_head(into, family)?;
    push_sample(into, family.name, measure, n)
}

/// Appends a number for each word, as long as there are both.
fn push_words(
    into: &mut Vec<u8>,
    name: &[u8],
    label: &[u8],
    words: &[&[u8]],
    counts: &[u64],
) -> Result<(), OutOfMemory>
    ensures { OnOk result (into.new.items
        ≡ into.old.items ++ word_samples name.now label.now (map (λ w. w.now) words.now) counts.now) }
{
    let mut rest = words;
    let mut left = counts;
    while let [word, more @ ..] = rest {
        let [count, further @ ..] = left else {
            return Ok(());
        };
        push_labelled(into, name, label, word, *count)?;
        rest = more;
        left = further;
    }
    Ok(())
}

/// Appends a family by the words of a label, as many as there are words and numbers.
#[tactic(auto, unfolding(crate::specs::Samples::by_word_text))]
pub fn push_by_word(
    into: &mut Vec<u8>,
    family: Family,
    label: &[u8],
    words: &[&[u8]],
    counts: &[u64],
) -> Result<(), OutOfMemory>
    ensures { OnOk result (into.new.items ≡ into.old.items
        ++ by_word_text family.kind family.name.now family.help.now label.now
        (map (λ w. w.now) words.now) counts.now) }
{
    push_head(into, family)?;
    push_words(into, family.name, label, words, counts)
}

fn push_partitions(
    into: &mut Vec<u8>,
    name: &[u8],
    measure: Measure,
    gauges: &[PartitionGauge],
) -> Result<(), OutOfMemory>
    ensures { OnOk result (into.new.items
        ≡ into.old.items ++ flat_map (partition_sample name.now measure) gauges.now) }
{
    for gauge in gauges {
        push_partition(into, name, measure, *gauge)?;
    }
    Ok(())
}

/// Appends a family by partitions.
#[tactic(auto, unfolding(crate::specs::Samples::by_partition_text))]
pub fn push_by_partition(
    into: &mut Vec<u8>,
    name: &'static [u8],
    help: &'static [u8],
    measure: Measure,
    gauges: &[PartitionGauge],
) -> Result<(), OutOfMemory>
    ensures { OnOk result (into.new.items
        ≡ into.old.items ++ by_partition_text name.now help.now measure gauges.now) }
{
    push_head(
        into,
        Family {
            kind: Kind::Gauge,
            name,
            help,
        },
    )?;
    push_partitions(into, name, measure, gauges)
}
