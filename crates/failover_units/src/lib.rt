//! What a node knows of the partitions of the cluster.
//!
//! Per partition a node keeps the configuration of greatest epoch that it was told, and the greatest
//! epoch that it has seen at all, so that the next reconfiguration begins above it. `Units` is a map from
//! partitions to these two, for at most `MAX_UNITS` partitions. The crate stands on the points and epochs of
//! `ring_points`, and searches a range of the ring by `lane_scan`. It promises that every call is the
//! change of that map which its definition says, and that a refused call changes nothing.
#![tactic(auto)]

mod laws;
mod range;
mod refusal;
mod unit;
mod units;

pub use laws::what_is_known_only_rises;
pub use refusal::UnitRefusal;
pub use units::{MAX_UNITS, Units};
