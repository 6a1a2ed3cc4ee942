//! The lines of a report: printed, and read again.
//!
//! A report's line is appended to the text so far, all of it or nothing, and is read again as the same head and report.
//! The fields that commands have too, names, partitions and texts, are read here. The crate stands on the grammar of
//! lines and on fields of text, and promises that printing and reading are two sides of that grammar.
#![tactic(auto, using(text_fields::proofs::Lists::keeps_on))]

mod field;
mod name;
mod report;

pub use field::{partition_word, text_of};
pub use name::last_name;
pub use report::{head_at, print_report, print_sent, read_report, report_of};
