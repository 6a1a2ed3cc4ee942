//! When a firing of a served node is due: soon after news, and in growing pauses while nothing new comes.
//!
//! The crate decides the reading of the next firing, from the steps that the node took, its lease, and what is left of
//! it. It stands on the terms of the fabric and on the inputs of a step. It promises that a firing is due at least a
//! pace and at most an eighth of the lease after the last one, whatever came. It takes no memory.
#![tactic(auto)]

mod laws;
mod left;
mod news;
mod pace;

pub use laws::firings_keep_their_bounds;
pub use left::left_of;
pub use pace::FiringPace;
