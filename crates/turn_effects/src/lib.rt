//! What a step does to the devices: its records are kept, then its frames sent, then its reports written.
//!
//! Each record is written as bytes and synced before the next, each frame goes to the address that the configuration
//! has for its addressee, and the reports are lines of text. A frame that the links fail to send is left out, as a
//! network may lose any; where the keeper or the sink fails, nothing more is done. The crate stands on the formats and
//! on the outside of a running program. It promises that the whole of a step is done, or a front of it in that order,
//! and nothing else.
#![tactic(auto)]

mod address;
mod buffers;
mod execution;
mod frames;
mod records;
mod reports;
mod step_effects;

pub use buffers::Buffers;
pub use execution::carry_out;
pub use frames::send_all;
pub use records::keep_all;
pub use reports::write_lines;
pub use step_effects::StepEffects;
