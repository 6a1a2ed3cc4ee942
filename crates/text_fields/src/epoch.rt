ghost use Rattle.std.specs.Prelude.{◌≡◌, ◌++◌, OnOk};
ghost use Rattle.text_fields.specs.Fields.{Gives, last, word_of};
ghost use Rattle.text_fields.specs.Inverses.{IsField, EndsNumber};
ghost use Rattle.text_fields.specs.Epochs.{epoch_at, epoch_text};
ghost use Rattle.text_fields.specs.Texts.{Keeps};
ghost use Rattle.fabric_terms.specs.Ranges.{IsEpoch};

use crate::bad_field::BadField;
use crate::number::{number_in, push_number};
use crate::word::{after_word, push_bytes};
use fabric_terms::OutOfMemory;
use ring_points::{Epoch, MAX_COUNTER};

// An epoch, and what follows it.
fn epoch_at(bytes: &[u8]) -> Result<(Epoch, &[u8]), BadField>
    ensures { Gives (λ x. (x.0, x.1.now)) result (epoch_at bytes.now) }
{
    let (data_loss, rest) = number_in(0, MAX_COUNTER, bytes)?;
    let (configuration, rest) = number_in(0, MAX_COUNTER, after_word(b".", rest)?)?;
    let epoch = Epoch {
        data_loss: data_loss as u32,
        configuration: configuration as u32,
    };
    Ok((epoch, rest))
}

/// An epoch and the blank behind it, and what follows.
pub fn epoch_word(bytes: &[u8]) -> Result<(Epoch, &[u8]), BadField>
    ensures { Gives (λ x. (x.0, x.1.now)) result (word_of epoch_at bytes.now) }
{
    let (epoch, rest) = epoch_at(bytes)?;
    Ok((epoch, after_word(b" ", rest)?))
}

/// An epoch that nothing follows.
pub fn last_epoch(bytes: &[u8]) -> Result<Epoch, BadField>
    ensures { Gives (λ x. x) result (last epoch_at bytes.now) }
{
    match epoch_at(bytes)? {
        (epoch, []) => Ok(epoch),
        _ => Err(BadField),
    }
}

/// Appends an epoch.
pub fn push_epoch(into: &mut Vec<u8>, epoch: Epoch) -> Result<(), OutOfMemory>
    ensures ok { OnOk result (into.new.items ≡ into.old.items ++ epoch_text epoch) }
    ensures kept { Keeps into.old.items into.new.items }
{
    push_number(into, u64::from(epoch.data_loss))?;
    push_bytes(into, b".")?;
    push_number(into, u64::from(epoch.configuration))
}

/// An epoch has one text, and nothing else is read as that epoch.
pub fn epochs_have_one_text()
    ensures { IsField epoch_at IsEpoch epoch_text EndsNumber }
{}
