//! A name service on the committed log of a partition.
//!
//! An entry of a log may set a name or delete it. The names that entries leave are a map, kept along as entries are
//! applied, so that an answer costs a look-up and no walk of the log. Each name has a point on the ring, and a range of
//! the ring is searched by `lane_scan`. The crate stands on the entries of `replica_core` and on the definitions of
//! `name_rules`. It promises that the map is the one that the entries define, and that a refused call changes nothing.
#![tactic(auto)]

mod change;
mod listing;
mod name;
mod name_key;
mod names;
mod point;

pub use name::Name;
pub use names::{MAX_FREED_NAMES, Names};
pub use point::point_of;
