ghost use Rattle.std.specs.Prelude.{◌≡◌, Ok, None, IfOk, map, option_map, string_bytes};
ghost use Rattle.serve_words.specs.Forms.{form_of, plain};

use crate::form::ServeForm;
use crate::read::{form_in, is_form};
use crate::split::{front, is_short, places_of, split_words};
use fabric_terms::OutOfMemory;
use std::alloc::Global;

/// The form that the words are, without the program's name. None exactly where they are none of the forms. The words
/// are compared with the forms first, so that `clap` splits those alone that are one, and can refuse them for want of
/// memory alone. A form of one word has no value to split.
pub fn read_form<'a>(
    alloc: Global,
    words: &'a [String],
) -> Result<Option<ServeForm<'a>>, OutOfMemory>
    ensures form { IfOk result (λ r. option_map plain r ≡ form_of (map string_bytes words.now)) }
    ensures none { form_of (map string_bytes words.now) ≡ None → result ≡ Ok None }
{
    if !is_form(words) {
        return Ok(None);
    }
    if is_short(words) {
        return Ok(form_in(&places_of(words), words));
    }
    match split_words(alloc, front(words)) {
        Ok(split) => Ok(form_in(&split, words)),
        Err(_) => Err(OutOfMemory),
    }
}
