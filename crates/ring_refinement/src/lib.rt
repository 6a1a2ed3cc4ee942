//! The rules of the ring on the machine of the law: each step of a node's ring is deeds of that machine.
//!
//! A ring shows an instance of the machine: its links are the instance's slots, its token the instance's token, and
//! every message that was sent has its image among the machine's frames. Each row of the rules keeps that, moves the
//! points as it tells, and does nothing that the machine forbids. So whoever carries a world of the machine along with
//! the real one has the machine's laws of the real one.
#![tactic(auto)]

mod laws;

pub use laws::{a_spent_start_has_left, a_start_is_shown, each_step_is_deeds};
