//! What a served process does: which order things come in, what each of them makes of the process, and what is said.
//!
//! A served process has one actor. Things come to it one after another: the start, the readings and firings of its
//! turns, what has arrived, the lines of clients, and the commands of a policy. For each of them the definitions say
//! what comes to the actor, what the process keeps for its clients, and what is said to them and to the log. The crate
//! has definitions and laws alone. It stands on the rules of a running program, on the lines of the door, on the open
//! answers, on the choice of the log and on the pace of firings. It promises that what comes to the actor is a served
//! order, of which the laws of the cluster speak.
#![tactic(auto)]

mod laws;

pub use laws::{
    answers_end_or_are_kept, letting_go_is_silent, refused_lines_are_silent,
    the_process_is_its_actor,
};
