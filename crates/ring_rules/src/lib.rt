//! The rules of the ring at one node and at one arbitrator: what a step does, row by row.
//!
//! The code of this crate is the values that links are made of, and the numbers of nodes in rising order. Its
//! definitions are the rules: each row of the ring's step tables (docs/step-tables.md) is a function on plain records,
//! with the name of its event and its case, and the step of a node and the answer of an arbitrator are made of the
//! rows. They stand on the values of ranges, tokens, tallies, phases and routes, and read no clock, file or socket. The
//! code of the ring is proved to do what they say, and the safety of the ring is proved of them.
#![tactic(auto)]

mod input;
mod link;
mod rising;

pub use input::Input;
pub use link::{Link, LinkState};
pub use rising::put;
