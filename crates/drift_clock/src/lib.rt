//! Clocks that drift: what readings a clock within its bound may show, and how long to wait by one clock
//! so that a time has passed on every other.
//!
//! Time is whole ticks. Nothing relates the readings of two clocks but the true time, which no clock
//! shows. This crate stands on the limits alone. It promises above that readings are refused
//! exactly where two of them, neighbours or not, cannot come from a clock within the bound, and that a
//! wait by one clock covers the time that was promised on another.
#![tactic(auto)]

mod bound;
mod drift;
mod laws;
mod pair;
mod wait;

pub use bound::{Bound, MAX_TRUE_TIME};
pub use drift::{Drift, DriftBroken};
pub use laws::{refusals_name_a_broken_pair, tests_decide, the_latest_is_the_newest, wait_covers};
pub use wait::wait_of;
