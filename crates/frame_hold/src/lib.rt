//! Which frames of a node wait until its parent has let go of what they give away, and when they leave.
//!
//! A report of a step may give something up: points, a partition's lead, or everything. Its line has a number, and the
//! parent answers the number by a `done`. Until then each frame by which another node could take over what was given up
//! waits. To the layers above it is sent, and late. The crate decides what a step gives up, which frames wait, and which
//! leave after a `done`. It stands on frames and on the links below. It promises that no frame leaves before its `done`.
//! `OneLengthLinks` are beside it: the other rule that a parent needs of its links.
#![tactic(auto)]

mod frames;
mod held_frames;
mod holding;
mod holding_links;
mod losses;
mod one_length_links;
mod settling;

pub use held_frames::MAX_HELD;
pub use holding::Holding;
pub use holding_links::HoldingLinks;
pub use losses::{Before, GivesUp, Loss, given_up, gives_up};
pub use one_length_links::OneLengthLinks;
