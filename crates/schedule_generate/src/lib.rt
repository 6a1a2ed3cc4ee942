//! Generated schedules: the schedule of a seed, written as a text, or run for its summary.
//!
//! Which frames a round gives depends on what the nodes have sent, so the schedule is made along with its run, event by
//! event: the world takes each event before it is written. The crate stands on the world of a schedule and on the
//! judging of schedules. It promises that the text is the one that the definition gives for the seed, that a run of the
//! text takes and refuses what was taken and refused here, and that the numbers of the summary are those of its run.
//! Nothing is read. What is written waits in memory, and goes to the sink behind a round where 65,536 bytes or more
//! wait then, and at the end.
#![tactic(auto)]

mod course;
mod course_halt;
mod course_observer;
mod generator;
mod lines;
mod moves;
mod opening;
mod settings;
mod summary;
mod text;
mod turn;
mod write;

pub use summary::drill;
pub use text::generate;
