//! What the answers `state` and `log` say of an actor: a node or an arbitrator. What `hold` and `lead` say of a node to its
//! parent.
//!
//! An answer is a list of facts, one a line, in the order of the grammar of the door. The definitions speak of the
//! rules' states of a node and of an arbitrator. For how long a reconfiguration is under way no state says: the crate
//! counts it from the turn in which it was first seen. It stands on the steps of a node and of an arbitrator, of which
//! it only reads, on the span for which a parent may serve, and on the spelling of lines. It promises that the lines of
//! an answer are those of its definition. A writer that is short of memory leaves what stood before at the front, so a
//! caller can cut the rest off.
#![tactic(auto, using(text_fields::proofs::Lists::keeps_on))]

mod arbiter_state;
mod change_times;
mod holds;
mod laws;
mod line;
mod log;
mod node_state;
mod session_facts;

pub use arbiter_state::push_arbiter_state;
pub use change_times::{ChangeTimes, MAX_TIMED_CHANGES, SeenChange};
pub use holds::{push_hold, push_lead};
pub use laws::{changes_keep_their_time, each_replica_has_a_line};
pub use log::push_log;
pub use node_state::push_node_state;
pub use session_facts::SessionFacts;
