//! A replica of a partition: the epoch that it promised, and its log.
//!
//! A replica takes no call of an epoch below the promised one, so whoever has the promises of enough replicas knows
//! that nothing is written in a former epoch any more. Its log is of the epoch in which it last adopted one: it appends
//! to that log, adopts its own log for a greater epoch, or collects the log of another replica entry by entry and then
//! adopts that. The crate stands on epochs and configurations alone. It promises what each call answers and what it
//! makes of the replica, that a refused call changes nothing, and that memory is taken before anything changes.
#![tactic(auto)]

mod entry;
mod epoch;
mod laws;
mod refusal;
mod released;
mod replica;
mod role;

pub use entry::{Entry, EntryBytes};
pub use laws::{
    a_taken_call_promises_its_epoch, no_accepted_entry_is_older, no_log_is_ahead_of_the_promise,
    the_log_of_an_epoch_only_grows, the_promised_epoch_never_falls,
};
pub use refusal::{Done, ReplicaRefusal};
pub use released::MAX_FREED_ENTRIES;
pub use replica::Replica;
pub use role::Role;
