//! Tests of the whole program over devices in memory: schedules with what is written of them and the status; and what
//! `node`, `arbiter` and `cluster` write, keep and send, which sources they refuse, and what is left where one call of
//! a device fails, at each call in turn. The book of committed writes is tested by its own calls.
//!
//! What is written is proved to be the run that the rules define; here that run is compared with lines, records and
//! datagrams that were written down by hand, each refusal is met once, and runs that a device ended are followed by
//! another on the same records. The schedules of `worlds` are longer: another program of the same rules computed their
//! texts. The crate has no code of its own.
#![tactic(auto)]

#[cfg(test)]
mod audits;
#[cfg(test)]
mod books;
#[cfg(test)]
mod calls;
#[cfg(test)]
mod cluster;
#[cfg(test)]
mod devices;
#[cfg(test)]
mod full;
#[cfg(test)]
mod generated;
#[cfg(test)]
mod joins;
#[cfg(test)]
mod lengths;
#[cfg(test)]
mod limits;
#[cfg(test)]
mod names;
#[cfg(test)]
mod partitions;
#[cfg(test)]
mod pipes;
#[cfg(test)]
mod replicas;
#[cfg(test)]
mod schedules;
#[cfg(test)]
mod small;
#[cfg(test)]
mod streams;
#[cfg(test)]
mod take_overs;
#[cfg(test)]
mod turns;
#[cfg(test)]
mod worlds;
#[cfg(test)]
mod writes;
