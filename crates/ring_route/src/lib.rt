//! Which node to ask next for a point of the ring.
//!
//! A node knows the points of all configured nodes, and of those that it heard the latest instance and
//! when it heard it. A search for a point goes from hop to hop, each to the known node that is nearest
//! to the point. This layer keeps that table and says the next hop, who is up, and who stands near on
//! the ring. It stands on the distances of `ring_points` and the search of `lane_scan`. It promises that
//! a hop is strictly nearer, so that no chain of hops meets a node twice. No call takes memory.
#![tactic(auto)]

mod hop;
mod known;
mod laws;
mod near;
mod table;

pub use hop::Hop;
pub use known::is_among;
pub use laws::chains_end;
pub use table::RouteTable;
