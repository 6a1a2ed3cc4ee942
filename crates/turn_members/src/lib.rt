//! An actor of a running program: a node or an arbitrator, from its start to its last step.
//!
//! A start makes an actor from what is kept of it, and a step hands it what came. Each leaves a deed: the records to
//! sync, the frames to send and the reports to make, under one head. The crate puts a node and an arbitrator under one
//! type, so that whoever runs actors in turn need not ask which it is. It promises the starts and steps of the rules,
//! that a step for which memory is short or the table is full changes nothing, and that whatever comes in its ranges,
//! forged or not, each record and each frame of a deed has a spelling.
#![tactic(auto)]

mod answer;
mod arbiter_steps;
mod deed;
mod member;
mod start;

pub use arbiter_core::ArbiterError;
pub use deed::Deed;
pub use member::Member;
