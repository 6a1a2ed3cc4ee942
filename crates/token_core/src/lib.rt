//! The token of a node: the ranges that it owns, what it has frozen for a peer, and its flights.
//!
//! A part of the ring changes its owner in three steps: the giver freezes it for a slot and announces it
//! no more; once each peer has acknowledged a version without it, the giver gives it away as a flight;
//! the receiver takes the flight. An heir inherits what it knows of the one that has left. This crate
//! decides what a token becomes and when a call is refused; it stands on the range sets and on the phase
//! that alone may freeze and give. It promises the exact token after each call, that a refused call
//! changes nothing, and that no call takes memory.
#![tactic(auto)]

mod freeze;
mod laws;
mod refusal;
mod token;

pub use freeze::Freeze;
pub use laws::{
    a_freeze_has_the_owned_points, a_gain_has_both, a_gift_leaves_the_rest,
    an_inheritance_is_what_was_not_owned, frozen_points_are_not_announced,
};
pub use refusal::TokenRefusal;
pub use token::Token;
