//! The rules of partitions: what runs above the ring at a node and beside the accusations at an arbitrator.
//!
//! A partition has replicas at a few nodes, one of them the primary, which takes the writes. The node that holds ring
//! point 0 changes this by reconfigurations: in phases it asks the arbitrators and the replicas, and goes on with a
//! majority. An arbitrator keeps per partition the epoch that it prepared, its votes, and what was done. Each row of a
//! frame, a command or a firing (docs/step-tables.md) is a definition of its own; all of them together are one value,
//! `units`, for the rules of the world. Nothing here does anything of the ring. `fabric` names what runs above the ring
//! in this fabric, so whatever is said of a whole node, of the world and of the program speaks of one definition. The
//! code of this crate is the values that the definitions and the layers above share, and how an epoch compares with
//! what a register holds.
#![tactic(auto)]

mod above;
mod laws;
mod progress;
mod reconfig;
mod register;

pub use above::Fabric;
pub use laws::{questions_only_tell, registers_are_recorded};
pub use progress::{CatchUp, PeerProgress};
pub use reconfig::{Kind, Next, Standing, Task};
pub use register::{Preparation, is_above, is_newer};
