//! What the program reads from and writes to, as traits with a meaning, and their forms in memory.
//!
//! A device is the outside: bytes that come in, bytes that go out. Its trait says what each call does to
//! what the device has left or holds, as far as the device tells it, and counts how often it failed.
//! `Outside` is all devices of a running program as one, so that a contract speaks of one thing before
//! and after, and not of four devices with eleven meanings. `Devices` is the outside of four borrowed
//! devices: each call is that of its device, and the others stay as they were.
//! This crate stands on nothing of the project. Above it the program is written once, over the traits:
//! run on the real devices it is the product, and on the devices in memory, which show everything, it is
//! what the theorems speak of.
#![tactic(auto)]

mod clock;
mod datagram;
mod devices;
mod endpoint;
mod entries;
mod fault_plan;
mod keeper;
mod links;
mod mem_clock;
mod mem_keeper;
mod mem_links;
mod mem_sink;
mod mem_source;
mod outside;
mod refusal;
mod sink;
mod source;

pub use clock::Clock;
pub use datagram::{DATAGRAM_BYTES, Datagram, DatagramBytes};
pub use devices::Devices;
pub use endpoint::{Endpoint, SocketAddress};
pub use keeper::Keeper;
pub use links::Links;
pub use mem_clock::MemClock;
pub use mem_keeper::MemKeeper;
pub use mem_links::MemLinks;
pub use mem_sink::MemSink;
pub use mem_source::MemSource;
pub use outside::Outside;
pub use refusal::{EdgeRefusal, Failed};
pub use sink::{Sink, write_all};
pub use source::Source;
