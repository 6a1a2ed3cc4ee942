//! The rules of the whole world: what each event of a schedule does, the run that a schedule makes, and which
//! schedules are valid.
//!
//! The world has the true time, the clocks, the running actors, their synced records, and every frame that was ever
//! sent. It is generic in what runs above the ring at a node and beside the accusations at an arbitrator, so that what
//! is proved of the ring holds whatever runs there, so long as it keeps out of the ring's affairs. It stands on the
//! rules of the ring; the run of a schedule is what the program's promise speaks of. Its code says which nodes a
//! command may name, and who begins with the whole ring.
#![tactic(auto)]

mod above;
mod nodes;
mod whole;

pub use above::{Above, Nothing};
pub use nodes::{is_configured_node, is_named};
pub use whole::first_whole;
