//! A whole node: its start from what is kept, and its step, with the records to sync, the frames to send and the
//! reports to make.
//!
//! Memory for what a step leaves is taken before the step is done, so that a node for which memory is short is as it
//! was, and what was kept of a node that could not start is still there. Whoever runs many nodes has one `NodeEffects`
//! for all of them, in which each step leaves what it does. The caller syncs the records, then sends the frames, then
//! prints the reports. This crate stands on the ring at one node and on what runs above it, the manager of
//! partitions and the replicas, which `UnitNode` puts together. Its promise is the step of a whole node in the rules of
//! the world. A row above the ring that may want memory is done before the ring's own, which wants none and notes only
//! who was heard: these are commands and frames to replicas, and they read nothing that the ring's row changes. Answers
//! to the manager and firings come after the ring's row, whose notes they read, and want no memory.
#![tactic(auto)]

mod above;
mod batch;
mod boots;
mod capacity;
mod kept;
mod node;
mod node_effects;
mod node_parts;
mod outcome;
mod unit_commands;
mod unit_firing;
mod unit_frames;
mod unit_loads;
mod unit_part;
mod whole_step;

pub use batch::Batch;
pub use kept::NodeKept;
pub use node::NodeCore;
pub use node_effects::NodeEffects;
pub use outcome::Outcome;
