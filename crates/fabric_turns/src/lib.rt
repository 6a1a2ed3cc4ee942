//! The run of actors in turn over the devices: what `node`, `arbiter` and `cluster` do once their source is read.
//!
//! A run reads what is kept of its actors, opens their endpoints, starts them, and then lets each take its turns. In a
//! turn a node reads the clock, takes its commands, hears what has arrived, and fires; an arbitrator hears what has
//! arrived. Each thing that comes is one step, and is done whole at the devices before the next. The crate stands on
//! the actors, on what a step does to the devices, and on the rules of a running program. It promises at every status
//! which steps were taken, what was kept, sent and written, and why the run ended.
#![tactic(auto)]

mod actor_step;
mod clock;
mod commands;
mod datagrams;
mod ending;
mod recovery;
mod run;
mod startup;
mod turn;
mod turns;
mod whole_run;
mod workspace;

pub use clock::read_clock;
pub use recovery::recall;
pub use run::Run;
pub use whole_run::run_on;
