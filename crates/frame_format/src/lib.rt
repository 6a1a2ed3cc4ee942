//! Which bytes are frames, and of which message.
//!
//! The code of this crate is the value that stands before a frame's body. Its definitions are the grammar of frames:
//! how each message is spelled, and what is read of bytes. Its laws say that reading and spelling undo each other, so a
//! message has one frame and a frame one message, and that no frame has more than `FRAME_LIMIT` bytes. It stands on the
//! terms of messages and on the definitions of their fields. `ring_wire` reads and writes what they say; what is stated
//! of frames stands on this crate alone.
#![tactic(auto)]

mod frame_head;
mod laws;

pub use frame_head::FrameHead;
pub use laws::{one_spelling, short_spelling};
