//! The rules of partitions on the machine of their laws: each row of a replica, of an arbitrator and of a manager is
//! deeds of that machine.
//!
//! A partition has a machine of its own. A replica shows the machine's replica of its node, an arbitrator's register
//! the machine's arbitrator, a manager's reconfiguration its attempt and its plan, and each frame of the partition what
//! was done before it was sent: `specs/Shown.antt`, `specs/ReplicaStates.antt`, `specs/Registers.antt` and
//! `specs/Reconfigs.antt` say so. Each row of the rules keeps that, and does nothing that the machine forbids. So
//! whoever carries a world of the machine along with the real one has the machine's laws of the real one.
#![tactic(auto)]

mod laws;

pub use laws::{
    answers_are_deeds, beginnings_are_shown, commands_are_deeds, each_question_is_deeds,
    each_step_is_deeds, firings_are_deeds, frames_are_deeds, logs_are_kept,
    manager_answers_are_deeds, questions_are_shown, restarts_are_deeds, starts_are_deeds,
    who_shows_is_fit, writes_are_deeds,
};
