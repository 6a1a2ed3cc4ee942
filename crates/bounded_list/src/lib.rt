//! A list of bounded length that takes no memory.
//!
//! `Bounded<T, N>` holds at most `N` items in the value itself. Contracts see it as the list of its items. A step
//! writes what it records, sends and reports into such lists, so that no row of a step can run out of memory. The lists
//! are then moved to the caller's vectors, which have the room.
#![tactic(auto)]

mod bounded;

pub use bounded::Bounded;
