//! The effects of a row of partitions: what it records, sends and reports.
//!
//! The rules say what a row does as a list of deeds, in order. `UnitEffects` has what the deeds come to: records,
//! messages and reports, each kind in a bounded list of its own and in its order, so no row allocates for them. The
//! contract of a row says that its deeds were added behind what was there. This crate decides nothing. The rows of the
//! manager and of the replicas stand above it, and the node hands over what they leave.
#![tactic(auto)]

mod unit_effects;

pub use unit_effects::{MAX_ROW_RECORDS, MAX_ROW_REPORTS, UnitEffects, UnitRecords, UnitReports};
