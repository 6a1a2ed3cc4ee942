//! Committed writes: the book of them, and the law that they survive.
//!
//! A book keeps the committed entries of each partition under each data loss number. Of two reports about the same ones
//! it keeps the longer list, which begins with the shorter one. That two such lists always agree is a law of every
//! valid run, which stands here on the laws of epochs; so a book that is fed with every report of a run has exactly its
//! committed logs. It promises that a refused call changes nothing. Its code copies of each list only what is new.
#![tactic(auto)]

mod book;
mod kept;
mod laws;
mod lines;
mod worked;

pub use book::WriteBook;
pub use laws::{
    commits_agree, fed_books_have_committed, lives_agree, logs_stand_beside, reports_feed_books,
};
pub use worked::worked_book;
