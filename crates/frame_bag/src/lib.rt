//! The frames of a replayed schedule: all that were ever sent, as bytes, in their order.
//!
//! A message goes in as its frame, and comes out as it went in. Room is taken before, so that posting never fails. This
//! crate stands on the frames' format; its promise is that no frame is lost, changed or out of its place.
#![tactic(auto)]

mod bag;
mod run;

pub use bag::FrameBag;
