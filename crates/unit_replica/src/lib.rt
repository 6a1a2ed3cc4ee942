//! A replica at its node: what each frame of a manager or of a primary, and a firing, do at it.
//!
//! A node has at most one replica of a partition. Its state is the replica, the Sync that it took last, and what it
//! knows of the other members while it is the primary. Each row of the rules of partitions is a function here. It
//! changes one state, and adds what it records, sends and reports to the step's effects. `ReplicaStates` are all
//! replicas of a node: a frame, a write or a question about names goes to the replica of its partition, and a firing
//! goes to each. The names of a log are kept beside it, where contracts do not see them. Each row does exactly what its
//! rule says. Where memory is short, a call changes nothing.
#![tactic(auto)]

mod activate;
mod answer;
mod append;
mod boot;
mod fetch;
mod frame;
mod laws;
mod log_names;
mod named_replica;
mod piece;
mod primary_command;
mod progress;
mod promise;
mod replica_firing;
mod replica_state;
mod replica_states;
mod restart;
mod send;
mod sync;
mod write;

pub use laws::{starts_are_of_records, stops_are_taken};
pub use progress::MAX_PEERS;
pub use replica_states::ReplicaStates;
