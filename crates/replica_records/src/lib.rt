//! What a node's records of its replicas are beside the replicas.
//!
//! A replica's promise, its log and what it collects are recorded before any frame of the step leaves, and a start
//! reads nothing but the records. So after each step the records give the replicas of the node, but for their roles,
//! which end with the instance. The same holds of lists: the records name exactly the replicas that are not as new. All
//! this is a law of the rules alone.
#![tactic(auto)]

mod laws;

pub use laws::{
    nothing_is_kept, starts_are_kept, starts_begin_again, starts_go_on, starts_rise,
    starts_stay_kept, states_are_kept, steps_are_kept, steps_stay_kept,
};
