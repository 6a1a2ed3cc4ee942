//! The arbitrator's step: what it answers an accusation, a claim and a question about a partition, and what it records
//! first.
//!
//! An arbitrator keeps for each accused instance its first accuser. Who is accused itself is refused; the first accuser
//! of a victim is granted, each later one is told that the victim is taken. So no two instances get a majority about
//! one victim, and no two each a majority about the other. Of each later round about an accused instance it keeps the
//! first claimer for good, and tells each claimer whom it keeps; of the first round that is the first accuser. Of each
//! partition it keeps the highest prepared epoch, for one preparer alone, the first vote of each epoch, and what was
//! done last. The rules are those of `ring_rules` and `unit_rules`, and the tables `arbiter_tables`'. The crate
//! promises that the step is the rule's, that what is recorded is to be synced before the answer leaves, that an
//! arbitrator restored from its records is the one that made them, that a refused call changes nothing, and that no
//! vote of an epoch changes.
#![tactic(auto)]

mod answer;
mod arbiter;
mod laws;
mod register_laws;

pub use answer::{Answer, ArbiterError};
pub use arbiter::{Arbiter, MAX_ARBITER_ENTRIES};
pub use keep_log::Record;
pub use laws::{
    the_same_question_gets_the_same_ruling, what_is_kept_stays, what_is_recorded_is_new,
};
pub use register_laws::{
    an_arbitrator_is_its_records, one_decision_of_an_epoch, one_vote_of_an_epoch,
};
