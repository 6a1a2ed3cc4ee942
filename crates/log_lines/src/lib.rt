//! What the log of a served process has: which reports are written to it, and the lines that wait to be written.
//!
//! The log has all reports but those that say nothing new: an `own` with the ranges of the last one, and an answer to a
//! question that no client asked. Its lines wait in a queue of a fixed room, and a line that finds none is dropped and
//! counted. The crate stands on the terms of the fabric. It promises that what was pushed is what is taken, in order,
//! but for the dropped lines, and that the log says how many these were. After the queue is made no call takes memory.
#![tactic(auto)]

mod asking;
mod laws;
mod queue;
mod written;

pub use asking::Asking;
pub use laws::what_is_pushed_is_taken;
pub use queue::{LineQueue, MAX_QUEUE, Pushed};
pub use written::Written;
