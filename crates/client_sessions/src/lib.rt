//! What a served process says to its clients and to its log.
//!
//! A process has the answers that are open, the clients that watch, and what it needs to choose the lines of its log.
//! After each step of its actor it says what the step reported: to the log, to who watches, and to those whose answers
//! the reports end; then comes the answer to the line that made the step. The crate stands on the lines of the door, on
//! the open answers, on the choice of the log, and on door and log as devices. It never waits and never fails: a client
//! whose text finds no memory is dropped, and a line of the log is counted as lost. It promises above exactly what is
//! said, in which order, and what stays open.
#![tactic(auto)]

mod laws;
mod sessions;
mod telling;
mod text;
mod watchers;

pub use laws::{each_hears_its_replies, the_log_has_its_lines};
pub use sessions::Sessions;
pub use telling::StepTold;
pub use watchers::{MAX_WATCHERS, Watcher};
