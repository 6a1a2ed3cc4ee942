//! What a served process does over its devices, from its start to its end: life after life, under the policy of its
//! actor.
//!
//! A life is an instance of the actor, from the records that are kept of it. Where the instance of a node has left, the
//! process rests for a while, and the next instance begins with what the process keeps for its clients. The policy of a
//! node is its steward, and its plan to leave once it was told to leave; here they see the code of a node. The crate
//! stands on a life of a served process and on the policy. It promises that a process is such a row of lives, how it
//! ended and why, and that the policy says exactly what the steward or the plan gives, and nothing but commands that are
//! in their ranges.
#![tactic(auto)]

mod ending;
mod known_node;
mod leaving_words;
mod no_policy;
mod no_sink;
mod node_policy;
mod pausing;
mod read_steward;
mod returning;
mod serving;

pub use ending::ServeEnd;
pub use known_node::KnownNode;
pub use no_policy::NoPolicy;
pub use no_sink::NoSink;
pub use node_policy::NodePolicy;
pub use returning::Returning;
pub use serving::serve;
