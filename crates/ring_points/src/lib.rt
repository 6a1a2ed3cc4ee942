//! Points of the ring, the sets of points that a node can hold, who can hold them, and the limits that crates share.
//!
//! The ring has 2^64 points, and points are compared by their number or by their distance. A node owns a set of them
//! as a list of intervals; a process of a node is an instance. `limits` has each limit that several crates share, once.
//! This crate stands on nothing of the project, and most other crates stand on it. It promises that a range set is its
//! set of points: two with the same points are equal, and each call says which points are in its result. It promises
//! that each constant is the number of its definition, and that the limits fit each other. No call takes memory, and
//! each goes over the intervals once.
#![tactic(auto)]

mod interval;
mod laws;
mod limit_laws;
mod limits;
mod point;
mod ranges;
mod unit;
mod who;

pub use interval::Interval;
pub use laws::{
    a_set_has_one_list, difference_has_the_first_alone, meet_has_both,
    nearer_is_a_strict_total_order, nearer_part_has_the_nearer, union_has_either,
};
pub use limit_laws::constants_are_the_defined_limits;
pub use limits::{
    FRAME_LIMIT, MAX_ARBITRATORS, MAX_COUNTER, MAX_DOMAINS, MAX_DRIFT, MAX_GRAIN, MAX_HOPS,
    MAX_INTERVALS, MAX_LEASE, MAX_LISTED_NAMES, MAX_LOG_ENTRIES, MAX_MEMBERS, MAX_NAME,
    MAX_NAME_VALUE, MAX_NODE_NUMBER, MAX_NODES, MAX_PARTITIONS, MAX_READING, MAX_RING_REPORTS,
    MAX_ROUNDS, MAX_STEP_REPORTS, MAX_WRITE, MIN_LEASE, OUTBOX_LIMIT,
};
pub use point::{HALF_RING, Point, distance, nearer};
pub use ranges::{RangeSet, TooMany};
pub use unit::{Config, Epoch, Members};
pub use who::{ARBITRATORS, Flight, Ruling, Who};
