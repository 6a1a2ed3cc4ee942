//! Facts of every run: what a node last told is what its state holds, what an arbitrator answers stands in its synced
//! records, the clocks are those of who runs, and records only grow.
//!
//! They follow from the rules of the ring and the world alone, row by row, and know nothing of leases or of safety, so
//! that code which keeps a world can use them without the law. They hold whatever runs above the ring, as long as it
//! keeps out of the ring's affairs. Nor does the ring do anything of partitions: whatever comes, its rows send no frame
//! of a partition and report nothing of replicas and primaries.
#![tactic(auto)]

mod apart;
mod laws;

pub use apart::{starts_stay_apart, steps_stay_apart};
pub use laws::{
    clocks_are_of_running, instances_are_counted, last_own_is_held, leave_is_told, records_grow,
    table_is_kept,
};
