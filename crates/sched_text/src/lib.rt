//! The text of a schedule and of a report.
//!
//! A schedule's line is read as an event, and each event has one spelling: nothing else is read, and no
//! event is read in two ways. This layer decides what is a line and what is not; it knows no node, no frame and no
//! configuration, and reads and writes no device. It stands on the grammar of lines, on the lines of reports, which it
//! passes on, and on fields of text. It promises above that reading events takes no memory and that reading is what the
//! grammar says.
#![tactic(auto, using(text_fields::proofs::Lists::keeps_on))]

mod command;
mod event;
mod event_line;

pub use command::read_command;
pub use event::read_event;
pub use event_line::{EventLine, TickReadings, read_event_line, read_junk};
pub use fabric_terms::{
    Command, Event, Head, JunkBytes, OutOfMemory, Payload, Readings, Reason, Report, Verb,
};
pub use line_format::{
    BadLine, LineRefusal, names_are_their_bytes, one_command_spelling, one_report_spelling,
    one_spelling,
};
pub use report_lines::{head_at, print_report, print_sent, read_report};
