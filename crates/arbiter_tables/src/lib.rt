//! What an arbitrator keeps, as tables.
//!
//! Of the ring: the first accuser of each accused instance, and the first claimer of each later round about one, as
//! maps in the order of insertion, which contracts see as the lists of the rules. Of partitions: what was prepared,
//! voted and done, which contracts see as the registers of the rules. Whoever reads an arbitrator's records finds here
//! whether a record is in its place, and the arbitrator what it answers. The crate stands on the rules of the ring and
//! of partitions. It promises that each call answers and keeps what the rules say, and that want of memory leaves a
//! table as it was.
#![tactic(auto)]

mod accused;
mod accusers;
mod ballot;
mod claimers;
mod registers;
mod round;
mod table;
mod votes;

pub use registers::Registers;
pub use table::Table;
