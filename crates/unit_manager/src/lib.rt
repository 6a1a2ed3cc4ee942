//! The manager of partitions at a node: what its commands, the answers to it and a firing do.
//!
//! The node that holds ring point 0 is the manager. It knows configurations of partitions, and has at most one
//! reconfiguration of each partition under way. A command begins one, answers carry it on to its end, and a firing asks
//! again whoever has not answered. Each row of the rules of partitions is a call here. It changes the manager, and adds
//! what it sends and reports to the step's effects. Each call does exactly what its rule says. Where memory is short, a
//! call changes nothing. This crate does not know the ring: callers say whether the node is the manager, and which
//! nodes are up.
#![tactic(auto)]

mod answer;
mod command;
mod entries;
mod epoch;
mod laws;
mod list;
mod loads;
mod manager;
mod manager_firing;

pub use command::Wanted;
pub use laws::{answers_go_to_the_manager, nodes_are_loaded_as_the_rules_say};
pub use manager::Manager;
