//! The world of a schedule in code: what each event does, and what is seen of it.
//!
//! The world has the true time, the running actors with their clocks, the synced records of every actor, every frame
//! that was ever sent, and where the points are. An event is refused for the first of four reasons, and then nothing is
//! changed. This crate stands on the nodes, the arbitrators, the frames and the places; its promise is that what it
//! answers to the events of a schedule is the run that the rules of the world define.
#![tactic(auto)]

mod actors;
mod arbiter_start;
mod commit;
mod configured_arbiter;
mod delivery;
mod event_limits;
mod events;
mod frame_place;
mod replica;
mod ruling;
mod running;
mod seen;
mod start;
mod step;
mod stop;
mod tick;
mod world;

pub use frame_place::FramePlace;
pub use node_core::Batch;
pub use world::{Acted, EventRefusal, World};
