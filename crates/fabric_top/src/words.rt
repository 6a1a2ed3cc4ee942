ghost use Rattle.std.specs.Prelude.{◌≡◌, Ok, None, IfOk, IfSome, map, string_bytes};
ghost use Rattle.fabric_top.specs.Forms.{FitsForm, form_of};

use crate::form::Form;
use crate::read::{form_in, is_form};
use crate::split::{line_of, split_line};
use fabric_terms::OutOfMemory;
use std::alloc::Global;

/// The form that the words are, without the program's name. None exactly where they are none of the forms. The words
/// are compared with the forms first, so that `clap` splits those alone that are one, and can refuse them for want of
/// memory alone.
pub fn read_form(alloc: Global, words: &[String]) -> Result<Option<Form>, OutOfMemory>
    ensures form { IfOk result (λ r. r ≡ form_of (map string_bytes words.now)) }
    ensures none { form_of (map string_bytes words.now) ≡ None → result ≡ Ok None }
    ensures fits { IfOk result (λ r. IfSome r FitsForm) }
{
    if !is_form(words) {
        return Ok(None);
    }
    let line = line_of(alloc, words)?;
    match split_line(alloc, line.as_slice()) {
        Ok(split) => Ok(form_in(&split)),
        Err(_) => Err(OutOfMemory),
    }
}
