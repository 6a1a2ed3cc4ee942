//! What an actor keeps, as bytes: records, one spelling each, and what a list of them amounts to.
//!
//! Each record is synced before anything that the actor says rests on it, so a restarted actor is made of its records
//! alone. This crate says which bytes are a record, writes and reads them, and says of a whole list at which record it
//! is good no more. A node's list has its boots and what its replicas promised, wrote and adopted; an arbitrator's the
//! first accuser of each victim, the first claimer of each later round about one, and what it prepared, voted for and
//! keeps as done. The crate stands on the fields of records, on the rules of replicas and registers, and on an
//! arbitrator's tables. It promises that what is written is read as the same record, that a list is read exactly where
//! each record stands in its place, that every front of a good list is a good list, and that what is read is what the
//! rules make of the records.
#![tactic(auto)]

mod encode;
mod item;
mod kept;
mod kept_error;
mod laws;
mod not_taken;
mod places;
mod read;
mod reading;
mod replica_map;
mod rows;

pub use encode::{RECORD_LIMIT, encode_record};
pub use fabric_terms::Record;
pub use kept::{Kept, Records, Replicas};
pub use kept_error::KeptError;
pub use laws::{
    a_list_amounts_to_one_thing, a_record_in_its_place_is_taken, a_spelling_is_of_one_record,
    every_front_of_a_good_list_is_good,
};
pub use read::read_records;
