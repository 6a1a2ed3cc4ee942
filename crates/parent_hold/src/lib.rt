//! The devices of a node that has a parent: what a step gives up is said to the parent with a number, and no frame
//! leaves by which another node could take it over until the parent has let go.
//!
//! A step is looked at twice: before it, since what a node had tells what it gives up, and when its records are kept,
//! before its frames are sent. Then each report that gives something up becomes a line with the next number, and the
//! number is owed; other reports become plain lines, as the log has them. The crate stands on the frames that wait, on
//! the devices of a running program, and on the turns of a served process. It promises exactly which numbers a step
//! opens and which lines it says, and that nothing leaves before its `done`.
#![tactic(auto)]

mod handing;
mod held_devices;
mod laws;
mod parent_lines;
mod seen;
mod sending;
mod step_lines;

pub use held_devices::{DevicesBelow, HeldDevices, HoldTerms};
pub use laws::each_loss_has_its_number;
pub use parent_lines::ParentLines;
