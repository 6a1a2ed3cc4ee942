// The words of an answer that are no report, each with its writer. A tag comes before them, and a line feed behind.
mod hold;
mod log;
mod state;
mod unit;

pub use hold::{push_follows, push_held, push_leads, push_unheld};
pub use log::{push_entry, push_hex};
pub use state::{
    link_word, phase_word, push_arbiter, push_link, push_node, push_open, push_owns, push_up,
    push_watchers,
};
pub use unit::{push_changing, push_replica, role_word};
