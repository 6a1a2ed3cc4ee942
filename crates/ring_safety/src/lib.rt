//! The safety of the ring: no two nodes ever hold one ring point, over every valid run, whatever runs above.
//!
//! A world of the ring's machine follows each event of a run, since what a node last told is what its state holds and
//! what an arbitrator answers stands in its synced records (`run_facts`); so the laws of the machine are laws of the
//! run. What runs above the ring says that it does nothing of the ring by one `impl` of `Above`, and has the laws for
//! itself. They stand on the rules of the ring and the world; that the program does what the rules say is proved with
//! its code.
//!
//! A process that runs every actor of a configuration in turn, by one clock that does not fall, does what some valid
//! schedule does: the clock's reading is the true time and the reading of every node. So these laws hold of it too. A
//! datagram may reach another actor, or another instance, than it names; then it is a firing or nothing.
#![tactic(auto)]

mod cluster;
mod laws;

pub use cluster::{a_cluster_is_a_schedule, a_strange_frame_is_a_firing_or_nothing};
pub use laws::{
    answers_exclude, leaves_before_take_over, lives_are_safe, lives_exclude, lives_have_one_heir,
    lives_keep_places, lives_leave_before_take_over, one_heir_at_most, places_are_kept,
    ring_is_safe, ring_is_safe_with_nothing_above,
};
