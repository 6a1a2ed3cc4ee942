//! What the answers of the arbitrators amount to.
//!
//! Up to nine arbitrators answer a question each for itself, and only a majority, more than half of those
//! that are configured, settles it. A tally counts their rulings on one accusation, a vote tally the
//! configurations that they kept of one epoch; of each arbitrator the first answer counts. The crate
//! stands on the types of `ring_points`. It promises that each verdict is a function of the counted
//! answers, that two majorities share an arbitrator, and so that two tallies of the same arbitrators
//! never decide two configurations. No call takes memory.
#![tactic(auto)]

mod laws;
mod quorum;
mod tally;
mod verdict;
mod votes;

pub use laws::{majorities_meet, one_decision};
pub use quorum::is_majority;
pub use tally::Tally;
pub use verdict::{Verdict, VoteVerdict};
pub use votes::VoteTally;
