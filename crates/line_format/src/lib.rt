//! Which bytes are lines of a schedule and of a report, and what each of them is.
//!
//! The code of this crate is how a line is refused. Its definitions are the grammar of lines: how each event, command
//! and report is spelled, and what is read of bytes. Its laws say that reading and spelling undo each other, so each
//! has one spelling and nothing else is read. It stands on the definitions of fields and on the types of events and
//! reports, and knows no node, no frame and no configuration. `sched_text` reads a schedule's lines, `report_lines`
//! prints a report's and reads them again; what is stated of lines stands on this crate alone.
#![tactic(auto)]

mod bad_line;
mod laws;
mod refusal;

pub use bad_line::BadLine;
pub use laws::{names_are_their_bytes, one_command_spelling, one_report_spelling, one_spelling};
pub use refusal::LineRefusal;
