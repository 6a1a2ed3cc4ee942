//! Tests of the parts of a node, from range sets to replicas, and of the devices, those in memory and the real ones
//! over files, sockets, a clock and fake machines: worked examples from outside, and that each public call answers
//! where memory is ample. Records that are synced by one call, and the frames that wait for it.
//!
//! What each call of a part does is proved where it stands; here is what no clause says. What a real device does is no
//! matter of a proof; here it is seen once, each with a failure in mid-stream. The crate has no code of its own, so
//! that the parts are proved once.
#![tactic(auto)]

#[cfg(test)]
mod clocks;
#[cfg(test)]
mod disks;
#[cfg(test)]
mod fakes;
#[cfg(test)]
mod folders;
#[cfg(test)]
mod groups;
#[cfg(test)]
mod in_memory;
#[cfg(test)]
mod lanes;
#[cfg(test)]
mod locks;
#[cfg(test)]
mod loopback;
#[cfg(test)]
mod machines;
#[cfg(test)]
mod notes;
#[cfg(test)]
mod outages;
#[cfg(test)]
mod paces;
#[cfg(test)]
mod phases;
#[cfg(test)]
mod placement;
#[cfg(test)]
mod points;
#[cfg(test)]
mod quorums;
#[cfg(test)]
mod reading;
#[cfg(test)]
mod records;
#[cfg(test)]
mod replicas;
#[cfg(test)]
mod rounds;
#[cfg(test)]
mod routes;
#[cfg(test)]
mod rows;
#[cfg(test)]
mod sockets;
#[cfg(test)]
mod tokens;
#[cfg(test)]
mod units;
