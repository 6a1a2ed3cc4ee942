//! The lines of a stream whose bytes come in pieces: a line ends with a line feed, wherever the pieces end.
//!
//! Bytes go in by `take`, and lines come out by `next`. A line that is longer than the limit is said once, and the rest
//! of it is skipped. A part of a line without its line feed, at the end of the stream, never comes out. The room is
//! made once, and no call allocates. The crate stands on the search of the kit; it decides nothing about what a line
//! says.
#![tactic(auto)]

mod cut;
mod find;
mod stream;

pub use cut::Cut;
pub use stream::{MAX_CUT, StreamCut};
