//! Worked examples of the rules: what small schedules print, and what a row does with a small value, computed from the
//! definitions.
//!
//! Nothing runs above the ring in the examples of `ring`. Those of `partitions` are rows, phases and whole runs. Each
//! function promises one example, or those of one row. A wrong rule is refused by the examples that meet it. They are a
//! crate of their own, so that the checks of the rules stay short.
#![tactic(auto)]

mod partitions;
mod ring;

pub use partitions::{
    a_firing_sends_again, a_higher_epoch_supersedes, a_manager_refuses, a_manager_remembers,
    a_primary_answers_about_names, a_primary_commits, a_primary_writes, a_replica_appends,
    a_replica_collects_entries, a_replica_gives_entries, a_replica_promises, a_replica_refuses,
    a_replica_takes_a_log, a_replica_takes_its_role, a_start_has_its_replicas, a_swap_moves,
    an_arbitrator_answers, an_arbitrator_keeps_what_is_done, an_arbitrator_votes, asks_too_early,
    commands_go_on, creates_and_writes, epochs_are_prepared, epochs_follow, lists_units,
    logs_are_copied, loses_and_goes_on, moves_the_primary, nodes_are_up, refuses_more, sets_a_name,
    the_furthest_is_chosen, the_holder_of_point_0_manages, votes_decide,
};
pub use ring::{
    agrees_length, both_leave, cuts_length, finds_itself, finds_peer, joins, joins_through,
    leaves_before, restarts_empty, settles_split, stays_split, takes_nothing, takes_once,
    takes_over, takes_over_sooner,
};
