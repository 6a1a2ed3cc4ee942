//! A run that was traced is audited as safe.
//!
//! `trace` writes the transcript of a schedule, and `audit` reads a transcript and judges its run. This crate says what
//! joins them: read as a transcript, the text of a run has one group for each moment of the run, with its line, its
//! clocks and its reports, and the verdict on these groups is the verdict on the run. Every valid run is safe, so
//! `audit` of what `trace` wrote writes `safe` and the number of events, as long as the text keeps to the limits of a
//! transcript. That a run is safe, of the ring and of partitions, is said here by the one definition of
//! `fabric_terms`, which the auditor decides. The crate has definitions and laws alone; it stands on the tracing of
//! schedules, on the auditor and on the laws of runs (`ring_safety`, `epoch_safety`).
#![tactic(auto)]

mod laws;
mod safe_runs;

pub use laws::{recorded_runs_are_read_back, traced_schedules_are_safe};
pub use safe_runs::runs_are_safe;
