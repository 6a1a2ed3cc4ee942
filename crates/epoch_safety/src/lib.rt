//! The safety of partitions: one primary an epoch, no older write, and committed writes survive, over every valid run.
//!
//! A machine for each partition follows the events of a run (`epoch_machine`): a node's replicas are what its synced
//! records amount to (`replica_records`), an arbitrator's registers too, each step of a node is deeds of the machines
//! (`epoch_refinement`), and the ring does nothing of partitions (`run_facts`). So what a node sends and reports of
//! partitions is what the units do, and the laws of the machine are laws of the run. They stand on the rules of the
//! ring, of units and of the world.
#![tactic(auto)]

mod laws;

pub use laws::{
    answers_are_by_entries, answers_are_covered, answers_are_of_committed,
    lives_answer_of_committed, lives_cover_answers, lives_cover_names, lives_have_no_older,
    lives_have_one_primary, lives_keep_writes, names_are_covered, only_questions_are_answered,
    runs_have_no_older, runs_have_one_primary, writes_are_kept,
};
