//! The lines of a source: how they are cut, which are ignored, and how long and how many they may be.
//!
//! Every command that reads a source takes it line by line. A line ends with a line feed, and the last may end with the
//! source. The crate stands on the devices' traits and on the definition of lines; it decides nothing about what a line
//! says.
#![tactic(auto)]

mod cut;
mod ignored;
mod limits;
mod next_line;
mod piece;
mod reader;

pub use cut::cut_line;
pub use ignored::is_ignored;
pub use limits::{MAX_FIRST_LINE, MAX_LINE, MAX_LINES};
pub use next_line::NextLine;
pub use reader::LineReader;
