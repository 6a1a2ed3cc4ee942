// What a replica or a manager tells of its partition.
ghost use Rattle.std.specs.Prelude.{◌≡◌, [], ◌∷◌, ◌++◌, decimal, OnOk};
ghost use Rattle.text_fields.specs.Epochs.{epoch_text};
ghost use Rattle.text_fields.specs.Fields.{Gives};
ghost use Rattle.text_fields.specs.Texts.{Keeps, spaced};
ghost use Rattle.line_format.specs.Readers.{in_epoch, entry_of, entry_report_of, manager_report_of, unit_report_of};

use super::pair::push_number_behind;
use super::ring::ring_report_of;
use crate::field::partition_word;
use fabric_terms::{OutOfMemory, Report};
use line_format::BadLine;
use ring_points::{Epoch, MAX_COUNTER};
use text_fields::{
    BadField, after_word, epoch_word, last_epoch, last_number, push_bytes, push_epoch,
};

#[tactic(auto, unfolding(line_format::specs::Readers::in_epoch))]
fn in_epoch(words: &[u8]) -> Result<(u16, Epoch), BadField>
    ensures { Gives (λ x. x) result (in_epoch words.now) }
{
    let (partition, rest) = partition_word(words)?;
    Ok((partition, last_epoch(rest)?))
}

#[tactic(auto, unfolding(line_format::specs::Readers::entry_of))]
fn entry_of(words: &[u8]) -> Result<(u16, Epoch, u32), BadField>
    ensures { Gives (λ x. (x.0, (x.1, x.2))) result (entry_of words.now) }
{
    let (partition, rest) = partition_word(words)?;
    let (epoch, rest) = epoch_word(rest)?;
    Ok((partition, epoch, last_number(0, MAX_COUNTER, rest)? as u32))
}

// What a replica tells of its log, or else a report of the ring.
#[tactic(auto, unfolding(line_format::specs::Readers::entry_report_of))]
fn entry_report_of(words: &[u8]) -> Result<Report, BadLine>
    ensures { Gives (λ x. x) result (entry_report_of words.now) }
{
    if let Ok(rest) = after_word(b"adopted ", words) {
        let (partition, epoch, last) = entry_of(rest)?;
        Ok(Report::Adopted(partition, epoch, last))
    } else if let Ok(rest) = after_word(b"accepted ", words) {
        let (partition, epoch, lsn) = entry_of(rest)?;
        Ok(Report::Accepted(partition, epoch, lsn))
    } else if let Ok(rest) = after_word(b"committed ", words) {
        let (partition, epoch, lsn) = entry_of(rest)?;
        Ok(Report::Committed(partition, epoch, lsn))
    } else {
        ring_report_of(words)
    }
}

// What a manager tells of a reconfiguration, or else one of those.
#[tactic(auto, unfolding(line_format::specs::Readers::manager_report_of))]
fn manager_report_of(words: &[u8]) -> Result<Report, BadLine>
    ensures { Gives (λ x. x) result (manager_report_of words.now) }
{
    if let Ok(rest) = after_word(b"configured ", words) {
        let (partition, epoch) = in_epoch(rest)?;
        Ok(Report::Configured(partition, epoch))
    } else if let Ok(rest) = after_word(b"superseded ", words) {
        let (partition, epoch) = in_epoch(rest)?;
        Ok(Report::Superseded(partition, epoch))
    } else {
        entry_report_of(words)
    }
}

/// A report of a partition, or else one of the ring.
#[tactic(auto, unfolding(line_format::specs::Readers::unit_report_of))]
pub fn unit_report_of(words: &[u8]) -> Result<Report, BadLine>
    ensures { Gives (λ x. x) result (unit_report_of words.now) }
{
    if let Ok(rest) = after_word(b"promised ", words) {
        let (partition, epoch) = in_epoch(rest)?;
        Ok(Report::Promised(partition, epoch))
    } else if let Ok(rest) = after_word(b"primary ", words) {
        let (partition, epoch) = in_epoch(rest)?;
        Ok(Report::IsPrimary(partition, epoch))
    } else {
        manager_report_of(words)
    }
}

/// Appends a word that ends with a blank, a partition and an epoch.
pub fn push_in(
    into: &mut Vec<u8>,
    word: &[u8],
    partition: u16,
    epoch: Epoch,
) -> Result<(), OutOfMemory>
    ensures ok { OnOk result (into.new.items
        ≡ into.old.items ++ (word.now ++ spaced (decimal partition ∷ epoch_text epoch ∷ []))) }
    ensures kept { Keeps into.old.items into.new.items }
{
    push_number_behind(into, word, u64::from(partition))?;
    push_bytes(into, b" ")?;
    push_epoch(into, epoch)
}

/// The same, and an entry's number.
pub fn push_entry(
    into: &mut Vec<u8>,
    word: &[u8],
    partition: u16,
    epoch: Epoch,
    lsn: u32,
) -> Result<(), OutOfMemory>
    ensures ok { OnOk result (into.new.items
        ≡ into.old.items ++ (word.now ++ spaced (decimal partition ∷ epoch_text epoch ∷ decimal lsn ∷ []))) }
    ensures kept { Keeps into.old.items into.new.items }
{
    push_in(into, word, partition, epoch)?;
    push_number_behind(into, b" ", u64::from(lsn))
}
