//! The lines of the door and of a parent: what is asked, and what is answered.
//!
//! A line that is asked has a tag and a request. Who says it decides which requests there are: a client of a node
//! or of an arbitrator, or the parent of a node. Each line that is asked has one spelling, and nothing else is
//! read. Each line of an answer is written as its definition says, and two answers that differ have two lines. This
//! layer knows no node, no client and no socket; it decides the grammar alone. It stands on the grammar of commands
//! and reports, and on the words of links, phases and roles. Reading takes no memory, and writing only that of the
//! text. A writer that is short of memory may leave a front of its text behind what stood before, so a caller cuts
//! it off.
#![tactic(auto, using(text_fields::proofs::Lists::keeps_on))]

mod asked;
mod fault;
mod laws;
mod pair;
mod reply;
mod request;
mod words;

pub use asked::{Asked, BadRequest, Request, Speaker};
pub use fault::{Fault, fault_word, push_fault, push_late, push_unknown};
pub use laws::{one_asked_spelling, one_done_spelling, replies_have_one_line};
pub use pair::{push_number_behind, push_who_behind};
pub use reply::{push_done, push_end, push_given_up, push_reply, push_report, push_tag};
pub use request::{MAX_LISTED_ENTRIES, read_asked, read_done};
pub use words::{
    link_word, phase_word, push_arbiter, push_changing, push_entry, push_follows, push_held,
    push_hex, push_leads, push_link, push_node, push_open, push_owns, push_replica, push_unheld,
    push_up, push_watchers, role_word,
};
