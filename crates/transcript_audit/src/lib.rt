//! Auditing a transcript: the recorded run of a cluster is read, and the verdict on it written.
//!
//! A transcript has sections, and a section has groups, each of one event: the clocks of the running instances, and
//! what an instance told. The groups are put in the order of their LINEs over all sections and given to the auditor of
//! runs. The crate stands on the auditor and on the readers of reports and lines. It promises that what is written is
//! the verdict on the run that the bytes are, and that a transcript is refused at the first line that is none of the
//! format, not in its place, or past a limit.
#![tactic(auto)]

mod audit_result;
mod group;
mod group_index;
mod said;
mod told_line;
mod transcript;
mod verdict;

pub use audit_result::audit;
