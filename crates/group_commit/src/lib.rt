//! One sync for the records of many steps: frames wait until the records on which they rest are kept for good.
//!
//! A process that syncs the records of each step before it sends the step's frames waits for the disk once a step. Here
//! a record is appended without waiting, and from then on each frame is queued. Once a turn the process settles: the
//! records are synced by one call, and then the queue is sent, in the order in which the steps made it. A step counts
//! as kept and sent as soon as it is appended and queued, as a frame in a network counts as sent. Where the process
//! ends before it settles, none of these steps has happened to anybody else. The crate stands on the devices. It
//! promises that nothing leaves while a record that was appended before it is pending, that frames leave in their
//! order, each once, and that nothing leaves after a sync that has failed.
#![tactic(auto)]

mod commit;
mod group_devices;
mod keeper;
mod listened;
mod mem_keeper;
mod outgoing;
mod queued_links;
mod risen;
mod waiting;

pub use commit::Commit;
pub use group_devices::GroupDevices;
pub use keeper::GroupKeeper;
pub use mem_keeper::MemGroupKeeper;
pub use outgoing::Outgoing;
pub use queued_links::{MAX_QUEUED, QueuedLinks};
