//! A life of a served process over the devices: from the records of its actor to its end.
//!
//! A life starts its actor, and then takes turns. A turn of a node reads the clock, takes lines of clients and a command
//! of the policy, hears what has arrived, and fires where a firing is due; an arbitrator takes lines and hears. Each
//! thing that comes is one step, and it is done whole at the devices, and then told, before the next. Where the process
//! has a parent, what a step gives up is handed over to it before the frames of the step are sent. The crate stands
//! on the definitions of a served process, on the actors and the parts of a running program, and on what is said to
//! clients. It promises for each life which events came in which order, what was kept, sent and said of them, and why
//! the life ended.
#![tactic(auto)]

mod actor_step;
mod advice;
mod answers;
mod asked_commands;
mod audience;
mod board;
mod datagrams;
mod firing;
mod handover;
mod life;
mod lines;
mod live;
mod policy;
mod service;
mod start;
mod stepping;
mod telling;
mod turns;

pub use audience::Audience;
pub use board::{Board, Shown};
pub use handover::Handover;
pub use life::{LifeEnd, live_on};
pub use live::Live;
pub use policy::{Advice, Policy};
pub use service::Service;
