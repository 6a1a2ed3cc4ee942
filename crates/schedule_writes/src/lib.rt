//! The committed writes of a schedule: its lines are judged and run, and the committed logs of its run are written.
//!
//! Of an event nothing is told, but a book is fed with each report of committed entries, from the replica of the node
//! that reports. The crate stands on the running of schedules and on the book. It promises that what is written of a
//! good schedule is exactly the committed logs of its run, which is so since reports of committed entries never
//! contradict each other; and that of any other schedule, and where the source fails, the line of the fault alone is
//! written. The statuses, and what each comes from, are those of `replay`.
#![tactic(auto)]

mod committed;
mod feed;
mod laws;

pub use committed::writes;
pub use laws::one_output;
