//! Reconfigurations of a partition, from phase to phase.
//!
//! A manager gives a partition a new configuration in up to seven phases: the arbitrators prepare an epoch; of a swap
//! the old primary promises first; the replicas of the old configuration promise, the arbitrators decide on a
//! configuration, its members take the log, the arbitrators keep it as done, and its members take their roles. Each
//! phase asks one question, counts who answered, and ends with a majority, or, where the old primary alone is asked,
//! with its answer. The crate stands on the definitions of `unit_rules` and on the votes and placements that they name.
//! It promises that each call does exactly what the definition of its row says, and takes no memory.
#![tactic(auto)]

mod activate;
mod answered;
mod answers;
mod arbiters;
mod choices;
mod copy;
mod done;
mod members;
mod poll;
mod prepare;
mod promise;
mod reconfig;
mod step;
mod swap;
mod transitions;
mod vote;

pub use activate::ActivatePhase;
pub use answers::answered_unit;
pub use copy::CopyPhase;
pub use done::DonePhase;
pub use prepare::PreparePhase;
pub use promise::PromisePhase;
pub use reconfig::Reconfig;
pub use step::{Progress, Step};
pub use swap::SwapPhase;
pub use unit_rules::{Kind, Next, Standing, Task};
pub use vote::VotePhase;
