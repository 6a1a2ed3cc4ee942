//! The devices of a served process beyond those of a plan, as traits with a meaning, and their forms in memory.
//!
//! A door brings the lines of clients and takes the answers to them; the door of the page brings the heads of requests
//! and takes one answer to each; a report log takes lines; a rest passes the time until something may have come. No call
//! of a door or a log waits or fails: a client that does not read is dropped, and so is a line of the log that finds no
//! room. The crate stands on the devices of a plan. It promises that the forms in memory do what the traits say, and it
//! owns the limits of both doors.
#![tactic(auto)]

mod client_devices;
mod clients;
mod door;
mod limits;
mod log;
mod mem_client;
mod mem_door;
mod mem_log;
mod mem_page_door;
mod mem_rest;
mod page_door;
mod rest;

pub use client_devices::ClientDevices;
pub use clients::Clients;
pub use door::{Door, Said};
pub use limits::{MAX_ASKED, MAX_CLIENTS, MAX_HEAD, MAX_PAGE_CLIENTS, MAX_UNREAD};
pub use log::ReportLog;
pub use mem_client::MemClient;
pub use mem_door::{MemDoor, Scripted};
pub use mem_log::MemReportLog;
pub use mem_page_door::{MemPageDoor, ScriptedHead};
pub use mem_rest::MemRest;
pub use page_door::PageDoor;
pub use rest::Rest;
