//! Where the replicas of a partition are placed.
//!
//! Replicas that share a fault domain can fail together, so `place` takes at most one node of a domain:
//! in each domain the up node of least load, and of these the nodes of least load. Ties go to the lower
//! number, so the same loads always give the same nodes. The crate stands on lemmas of lists alone. It
//! promises the exact list, that the list is a choice of up nodes in distinct domains, and that no other
//! such choice costs less.
#![tactic(auto)]

mod candidate;
mod load;
mod placement;

pub use load::NodeLoad;
pub use placement::{TooFewDomains, place, placement_is_a_cheapest_choice};
