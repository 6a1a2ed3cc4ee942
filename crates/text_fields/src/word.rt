ghost use Rattle.std.specs.Prelude.{◌≡◌, ◌++◌, OnOk};
ghost use Rattle.text_fields.specs.Fields.{Gives, after_word};
ghost use Rattle.text_fields.specs.Texts.{Keeps};

use crate::bad_field::BadField;
use fabric_terms::OutOfMemory;

/// What follows the word, where the bytes begin with it.
#[tactic(auto, using(crate::proofs::Lists::rest_is), unfolding(crate::specs::Fields::after_word))]
pub fn after_word<'a>(word: &[u8], bytes: &'a [u8]) -> Result<&'a [u8], BadField>
    ensures { Gives (λ x. x.now) result (after_word word.now bytes.now) }
{
    if bytes.starts_with(word) {
        Ok(&bytes[word.len()..])
    } else {
        Err(BadField)
    }
}

/// Appends a word, or any bytes, as they are.
pub fn push_bytes(into: &mut Vec<u8>, bytes: &[u8]) -> Result<(), OutOfMemory>
    ensures ok { OnOk result (into.new.items ≡ into.old.items ++ bytes.now) }
    ensures kept { Keeps into.old.items into.new.items }
{
    into.extend_from_slice(bytes)?;
    Ok(())
}
