//! The words of the program `fabricd`: which actor runs by which FILE, or which of its other commands.
//!
//! `read_form` says which of the forms the words are. The forms are a definition, and a comparison with them alone
//! decides: `clap` then splits the command and its values, where the words are a form, so its only other answer is that
//! memory is out. What stands in the words is neither opened nor looked at: a folder may be missing, an address may be
//! none, and `--hold` may be longer than the lease. The crate stands on the numbers of actors and on readers of numbers.
//! It promises that a form is read exactly when the words are one, and that it has each value as it was given.
#![tactic(auto)]

mod form;
mod given;
mod kinds;
mod read;
mod reading;
mod split;
mod words;
mod worked;

pub use form::{Parent, ServeForm, ServeOptions};
pub use words::read_form;
