//! The ring at one node: what it does when its timer fires, when a frame arrives, and when an operator commands it.
//!
//! A node puts together its links, its token, its routes and its phase. One input is one step: a new state, the frames
//! to send and the reports to make, by the rows of the ring's rules and in their order. A row that would need a number
//! past the last is not done, and the node leaves. This crate decides nothing of its own; it stands on the parts, does
//! for each note of the links what the rules say, and promises that a step is exactly the step of the rules. No call
//! takes memory.
#![tactic(auto)]

mod acked;
mod again;
mod cause;
mod commands;
mod frames;
mod giving;
mod greetings;
mod leave;
mod link_frames;
mod near;
mod node;
mod notes;
mod ownership;
mod refusals;
mod reports;
mod ring_firing;
mod searches;
mod start;
mod step;
mod tokens;
mod up;

pub use node::RingNode;
pub use ownership::Owned;
pub use reports::Reports;
pub use ring_rules::Input;
