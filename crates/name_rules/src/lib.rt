//! What names a log leaves: definitions, and their laws.
//!
//! An entry of a log may set a name or delete it. The crate says how such an entry is spelled, which names the entries
//! of a log leave, in which order they stand, and which of them an answer lists. `name_service` keeps these names
//! along; the rules of partitions and their laws stand on the definitions alone. It promises that what a name stands
//! for is what the last entry about it says.
#![tactic(auto)]

mod laws;
mod worked;

pub use laws::{names_are_what_was_said_last, one_name_at_a_place, one_spelling_of_a_change};
pub use worked::worked_names;
