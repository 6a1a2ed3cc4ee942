//! What `node`, `arbiter` and `cluster` read from their source: who runs, and which commands come in which turn.
//!
//! Line 1 is the configuration, with where each actor listens. Behind it stand commands: `<turn> <command>` for one
//! node, `<turn> <node> <command>` for a cluster, and none for an arbitrator. The crate stands on the readers of
//! configurations and lines, and on the plan of a run. It promises that what is read is the plan that the bytes define,
//! that each refusal comes exactly where they say so, and that what is read can be run.
#![tactic(auto)]

mod actors;
mod bid;
mod crew;
mod error;
mod given;
mod orders;
mod plan_verdict;
mod read;

pub use crew::Crew;
pub use error::PlanError;
pub use read::read_plan;
