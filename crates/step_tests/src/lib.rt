//! Tests of steps, by their public calls: links and the ring at one node, whole nodes, arbitrators, reconfigurations,
//! and the names of a log.
//!
//! What each call answers is proved where it stands; here are worked rows from outside: each call once on its way, what
//! a node says and reports as its peers and the arbitrators answer, to what an arbitrator gives no answer, when it is
//! full, what its records are as bytes, and what it knows when it begins from them. The crate has no code of its own.
#![tactic(auto)]

#[cfg(test)]
mod arbiters;
#[cfg(test)]
mod heirs;
#[cfg(test)]
mod links;
#[cfg(test)]
mod names;
#[cfg(test)]
mod node_state;
#[cfg(test)]
mod nodes;
#[cfg(test)]
mod outboxes;
#[cfg(test)]
mod reconfigs;
#[cfg(test)]
mod ring;
#[cfg(test)]
mod whole_nodes;
