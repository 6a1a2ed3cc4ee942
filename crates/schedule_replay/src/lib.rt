//! Replaying a schedule: its lines are judged and run, and what is told of each is written.
//!
//! A schedule's lines are taken one after another: each is judged against the world that the lines before it have made,
//! run, and what it tells is appended to the report. The crate stands on the rules of schedules, on the world of a
//! schedule and on the readers of configurations and lines. It promises that what is written is the report of the run
//! that the rules define, that each refusal comes exactly where the judged bytes say so, and that what is accepted is a
//! valid schedule.
#![tactic(auto)]

mod clocks;
mod ending;
mod page;
mod refusal;
mod report_observer;
mod run;
mod run_observer;
mod schedule;
mod schedule_reader;
mod step_report;
mod transcript_observer;

pub use ending::push_end;
pub use report_observer::replay;
pub use run::run_schedule;
pub use run_observer::RunObserver;
pub use transcript_observer::trace;
