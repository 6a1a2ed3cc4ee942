//! Tests of a served process: what its policy does over some turns, how a node leaves, and what its devices do over the
//! machine's own sockets and files.
//!
//! What each call does is proved where it stands; here is what no clause says. The crate has no code of its own.
#![tactic(auto)]

#[cfg(test)]
mod departures;
#[cfg(test)]
mod known_world;
#[cfg(test)]
mod policies;
#[cfg(test)]
mod real_doors;
#[cfg(test)]
mod real_folders;
#[cfg(test)]
mod real_logs;
#[cfg(test)]
mod real_looks;
#[cfg(test)]
mod real_pages;
#[cfg(test)]
mod real_rests;
#[cfg(test)]
mod temporary;
