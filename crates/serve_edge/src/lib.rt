//! The real devices of a served process: a door on a Unix socket, a page on TCP, a log on a stream, UDP links that
//! never wait, a rest that waits for all of them at once, and the folder of the actor.
//!
//! Each is a few lines over the standard library that meet a trait of `door_io` or `edge_io`. They share a board, on
//! which each says what it awaits. No contract can say what a socket or a file gives or takes. So what can be decided
//! without them stands in functions of its own, with exact contracts: the places and numbers of clients, the room for
//! what waits for one, readings and waits, the time of day, addresses, and the ways in which a start ends. No call
//! waits but the rest.
#![tactic(auto)]

mod actor_lines;
mod addresses;
mod binds;
mod board;
mod client;
mod door_clients;
mod files;
mod folder;
mod gate;
mod group_folder;
mod held_actor;
mod limits;
mod log_output;
mod look;
mod page_sockets;
mod parent_stream;
mod places;
mod poll_rest;
mod reader;
mod ready;
mod seats;
mod served_door;
mod served_links;
mod slot;
mod socket_door;
mod standard;
mod start_fault;
mod stdout_log;
mod time_of_day;
mod unread;
mod waits;
mod watch;
mod wire;
mod writing_rest;

pub use addresses::{read_address, shown};
pub use binds::{DOOR_NAME, bind_door, bind_page};
pub use board::PollBoard;
pub use door_clients::DoorClients;
pub use files::{read_file, read_key};
pub use folder::enter_folder;
pub use group_folder::GroupFolder;
pub use held_actor::{HeldActor, hold_actor};
pub use limits::MAX_FILE;
pub use log_output::LogOutput;
pub use look::{LookFault, SeenActor, see_actor, see_records};
pub use page_sockets::PageSockets;
pub use parent_stream::{END, PARENT_CLIENT, ParentStream};
pub use poll_rest::PollRest;
pub use served_door::ServedDoor;
pub use served_links::ServedLinks;
pub use socket_door::SocketDoor;
pub use standard::{STANDARD_ERROR, STANDARD_INPUT, STANDARD_OUTPUT};
pub use start_fault::StartFault;
pub use stdout_log::StdoutLog;
pub use time_of_day::{STAMP_BYTES, stamp};
pub use writing_rest::WritingRest;
