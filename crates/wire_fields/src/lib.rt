//! Fields: what frames and records are made of, as bytes.
//!
//! A field is a value in its range in one spelling: a number with its highest byte first, an actor's instance, an
//! epoch, a configuration, a range set, a text. Readers take a field from the front of some bytes and give what follows
//! it, or take it at a place; writers put it to a place. The crate stands on the points, epochs and configurations of
//! `ring_points`, and on the ranges of `fabric_terms`. It promises that what is read is in its range and spelled so,
//! that what is spelled so is read, whatever follows, and that a writer leaves all other bytes as they were.
#![tactic(auto)]

mod fields;
mod not_field;
pub mod read;
pub mod write;

pub use fields::{read_config_field, read_epoch, read_ranges, read_who};
pub use not_field::NotField;
