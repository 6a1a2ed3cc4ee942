//! How the program ends: its statuses, the exit code of each, and the line that names it.
//!
//! Every command ends with one of these statuses, and all but four write a last line that says which, so that who reads
//! the output alone knows too. The crate decides nothing; it stands on the errors of configurations and on the devices'
//! traits. It promises one code and one line a status, and that what a sink has more at the end is that line, or a
//! front of it where the sink wants memory or fails.
#![tactic(auto)]

mod ends;
mod fault;
mod numbered;
mod status;

pub use ends::write_last;
pub use fault::push_fault;
pub use numbered::{push_numbered, push_two};
pub use status::{Refusal, Status};
