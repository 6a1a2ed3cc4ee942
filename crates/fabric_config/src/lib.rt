//! The configuration of a fabric, read from one line of JSON.
//!
//! `read_config` reads the line by `serde_json` and answers the configuration, or the first check that
//! fails in the order of the fields' table. The types of a configuration are those of `fabric_terms`;
//! this crate decides which lines spell one, and how an error is worded. It promises above that what it
//! reads is sound: every number is in its range, no node's number or point is repeated, the
//! arbitrators are numbered 1, 2 and so on, and the first node is listed.
#![tactic(auto)]

mod arbiters;
mod entries;
mod error;
mod field;
mod limits;
mod nodes;
mod numbers;
mod point;
mod read;
mod worked;

pub use error::ConfigError;
pub use fabric_terms::{Address, Arbiters, FabricConfig, NodeEntry, Nodes};
pub use field::Field;
pub use read::{need_endpoints, read_config, what_is_read_is_sound};
pub use worked::worked_lines;
