//! How a ring whose nodes have all stopped begins again: which line 2 the folders of its actors lead to.
//!
//! `choose` looks at what was found in each folder and answers the partitions that the arbitrators keep as done and the
//! instance that begins with the whole ring, or the first refusal in a stated order; `line_of` writes the line. The
//! crate reads no folder. It stands on what the file `actor` says, on what records amount to, and on the reader of line 2.
//! It promises that the choice is the defined one, and that each line that it writes is read as what was chosen.
#![tactic(auto)]

mod candidate;
mod choice;
mod done;
mod folder;
mod line;
mod refusal;
mod worked;

pub use choice::{Choice, choose};
pub use folder::{Folder, Found};
pub use line::line_of;
pub use refusal::AgainRefusal;
pub use worked::{worked_choices, worked_refusals};
