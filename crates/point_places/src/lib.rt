//! Where each point of the ring is, and the lines that a report ends with.
//!
//! A point is with an instance, or in a flight on its way from a giver to a receiver. It begins with the first
//! instance, and the reports that tell of a move are all that moves it. This layer keeps the ring as segments of one
//! place each, and prints the points that are with an instance which does not hold them, and those in flight. It
//! knows no node and no lease: who holds what is told to it. It stands on the reports and on their text. It promises
//! that the places are those that the reports tell, that a move has no error where room was made for it, that the
//! lines are the only ones for these places and holders, and that a call which is refused moves no point.
#![tactic(auto)]

mod laws;
mod lines;
mod moves;
mod place;
mod places;
mod segments;
mod unheld;

pub use fabric_terms::{OutOfMemory, Report};
pub use laws::{lines_have_one_text, places_are_told_apart};
pub use places::Places;
pub use ring_points::{RangeSet, Who};
pub use unheld::Holder;
