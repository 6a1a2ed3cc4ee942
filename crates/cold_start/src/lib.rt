//! A cluster that comes back after all its nodes have stopped, as after a power cut.
//!
//! A run is a row of lives. In the first one instance 1 of the first node begins with the whole ring. A new life may
//! begin where no node runs; it keeps the synced records, all frames and the true time, and it names an instance that
//! has not run. That one begins with the whole ring, and no other. All else goes on by the rules of the world, so one
//! life is the run of a schedule. Frames of earlier lives may still come. `ring_safety` and `epoch_safety` prove what
//! holds over all lives.
#![tactic(auto)]

mod laws;

pub use laws::{
    begins_once, next_may_be_again, one_begins_with_the_ring, one_life_is_a_schedule,
    past_may_not_be_again, two_hold_where_one_runs_on,
};
