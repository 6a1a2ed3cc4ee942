//! The real devices: standard input and output, files of a folder, UDP sockets, the machine's clock.
//!
//! Each is a few lines over the standard library that meet a trait of `edge_io`. No contract can say what
//! a file, a socket or a terminal gives or takes, so these devices tell only what every device tells: how
//! often they failed, which endpoints were opened, and the last reading. What stands in a file of records
//! is decided by functions over bytes, with exact contracts. The program above is written over the traits
//! and runs on these unchanged.
#![tactic(auto)]

mod boot_clock;
mod failures;
mod folder;
mod folder_keeper;
mod folder_paths;
mod held_file;
mod lock_files;
mod mono_clock;
mod outage;
mod pace;
mod peers;
mod record_file;
mod record_reader;
mod signals;
mod stdin_source;
mod stdout_sink;
mod streams;
mod ticks;
mod udp_links;

pub use boot_clock::BootClock;
pub use folder_keeper::FolderKeeper;
pub use lock_files::LockFiles;
pub use mono_clock::MonoClock;
pub use record_reader::RecordReader;
pub use stdin_source::StdinSource;
pub use stdout_sink::StdoutSink;
pub use streams::hold_streams;
pub use udp_links::UdpLinks;
