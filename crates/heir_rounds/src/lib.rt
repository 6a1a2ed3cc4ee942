//! Whom the arbitrators keep of the rounds about one victim.
//!
//! Where the arbitrators split their grants, nobody is the victim's heir. Then the discharged may claim a
//! further round: in each round an arbitrator keeps one claimer for good, and who has a majority of one
//! round is the heir. A tally counts what they told of the present round, of each arbitrator its first
//! answer; it goes on to the next round only where nobody can have a majority of this one. So no two
//! instances are heirs of one victim, whatever the rounds. No call takes memory.
#![tactic(auto)]

mod laws;
mod rounds;
mod verdict;

pub use laws::{one_heir_at_most, one_tally_is_won_at_most};
pub use rounds::RoundTally;
pub use verdict::RoundVerdict;
