//! What a schedule is, how its lines are judged, and what is told of it.
//!
//! The code of this crate is why a run over lines halts, and how the text that waits goes to the sink, with a fault or
//! without. Its definitions say which lines a world takes, what the words tell of each, and how a run ends; its laws
//! say that one text at most is written of a schedule, and that what is accepted is a valid schedule of a sound
//! configuration. It stands on the grammar of lines and on the rules of the world, and on no code of the world or of a
//! node. `schedule_replay` does what they say; what is stated of schedules, of audits and of what is generated stands
//! on this crate alone.
#![tactic(auto)]

mod halt;
mod laws;
mod page;

pub use halt::Halt;
pub use laws::{accepted_is_valid, one_output};
pub use page::{send_full, write_fault};
