//! What the fabric's messages, schedules, records and reports are made of, and what is seen of a run.
//!
//! The types have no behaviour of their own but `copy_of`: readers and printers are crates above. Beside
//! them are the definitions that the program's promise is made of: a run as a list of moments, who holds
//! a point, and what a safe run is. They speak of reports, readings and running instances alone, and know
//! no lease, message or table.
#![tactic(auto)]

mod bytes;
mod command;
mod config;
mod copy;
mod event;
mod memory;
mod message;
mod names;
mod outbox;
mod record;
mod report;

pub use bytes::Payload;
pub use command::Command;
pub use config::{Address, Arbiters, FabricConfig, NodeEntry, Nodes};
pub use copy::copy_of;
pub use event::{Event, JunkBytes, Readings};
pub use memory::OutOfMemory;
pub use message::{Body, Message};
pub use names::{NameText, NameTexts, NameValue};
pub use outbox::Outbox;
pub use record::Record;
pub use report::{Head, Partitions, Reason, Report, Verb, Why};
