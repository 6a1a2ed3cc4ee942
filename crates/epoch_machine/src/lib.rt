//! The laws of partitions: one primary an epoch, no write older than a promise, and committed writes are kept,
//! on a machine that allows more than managers, replicas and arbitrators do.
//!
//! The machine is of one partition. It has what the arbitrators and the replicas keep, all that was ever sent
//! and told, and what each primary wrote. One deed follows the other: `specs/Guards.antt` says when a deed may
//! happen, `specs/Effects.antt` what it leaves. What was sent comes at any time, in any order, once, often or
//! never, and a node may restart at any time. It stands on replicas' entries and on instances alone. Whoever
//! shows that each row of the rules of partitions is a list of deeds has these laws of the rules:
//! `proofs/Histories.antt` has what one deed keeps. `epoch_refinement` shows it, row by row.
#![tactic(auto)]

mod laws;

pub use laws::{
    answers_covered, committed_stands, invariant_holds, no_older, one_primary, writes_kept,
};
