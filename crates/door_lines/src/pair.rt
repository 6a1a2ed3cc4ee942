// A field behind a word.
ghost use Rattle.std.specs.Prelude.{◌≡◌, ◌++◌, codes, decimal, OnOk};
ghost use Rattle.text_fields.specs.Epochs.{epoch_text};
ghost use Rattle.text_fields.specs.Instances.{who_text};
ghost use Rattle.text_fields.specs.Texts.{Keeps};

use fabric_terms::OutOfMemory;
use ring_points::{Epoch, Who};
use text_fields::{push_bytes, push_epoch, push_number, push_who};

/// Appends a number behind a word.
pub fn push_number_behind(into: &mut Vec<u8>, word: &[u8], n: u64) -> Result<(), OutOfMemory>
    ensures ok { OnOk result (into.new.items ≡ into.old.items ++ (word.now ++ decimal n)) }
    ensures kept { Keeps into.old.items into.new.items }
{
    push_bytes(into, word)?;
    push_number(into, n)
}

/// Appends an epoch behind a blank.
pub fn push_epoch_behind(into: &mut Vec<u8>, epoch: Epoch) -> Result<(), OutOfMemory>
    ensures ok { OnOk result (into.new.items ≡ into.old.items ++ (codes " " ++ epoch_text epoch)) }
    ensures kept { Keeps into.old.items into.new.items }
{
    push_bytes(into, b" ")?;
    push_epoch(into, epoch)
}

/// Appends an instance behind a word.
pub fn push_who_behind(into: &mut Vec<u8>, word: &[u8], who: Who) -> Result<(), OutOfMemory>
    ensures ok { OnOk result (into.new.items ≡ into.old.items ++ (word.now ++ who_text who)) }
    ensures kept { Keeps into.old.items into.new.items }
{
    push_bytes(into, word)?;
    push_who(into, who)
}

/// Appends bytes behind a blank.
pub fn push_word(into: &mut Vec<u8>, word: &[u8]) -> Result<(), OutOfMemory>
    ensures ok { OnOk result (into.new.items ≡ into.old.items ++ (codes " " ++ word.now)) }
    ensures kept { Keeps into.old.items into.new.items }
{
    push_bytes(into, b" ")?;
    push_bytes(into, word)
}
