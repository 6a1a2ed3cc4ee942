//! A cluster in one process is safe.
//!
//! A process that runs the actors of a configuration in turn, from empty records, and hears no frame but those that it
//! has sent itself, does what some valid schedule does, whether its commands are planned or come while it runs. So the
//! laws of runs hold of its steps: no two instances hold one point, who was taken over holds nothing, a partition has
//! one primary in an epoch, no write of an older epoch is accepted, what was committed stays, and answers about names
//! rest on it. This crate reads the steps of a running program as moments of a run, and their records as the logs of
//! its nodes, and says so. It has definitions and laws alone; it stands on the rules of running programs, on the law
//! that a cluster is a schedule, and on the laws of runs.
#![tactic(auto)]

mod laws;

pub use laws::{
    a_cluster_is_safe, a_served_cluster_is_safe, nothing_is_recalled_from_an_empty_keeper,
    steps_as_moments,
};
