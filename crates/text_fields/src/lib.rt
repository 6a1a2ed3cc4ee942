//! Fields of a line of text: words, numbers, points, ranges, actors, instances and epochs.
//!
//! Each field is read from the front of some bytes and written at the end of a text, side by side. A
//! reader `x_at` gives the value and what follows it, `x_word` takes the blank behind it too, and `last_x` wants
//! nothing behind it. This layer knows no line and no report; it stands on the points of the ring,
//! and promises above that reading takes no memory, that what is read is spelled as it would be written, and that
//! what is written is read as the same value. A writer that is short of memory may leave a front of its text:
//! what stood before stands still, so a caller cuts the rest off.
#![tactic(auto, using(crate::proofs::Lists::keeps_on))]

mod actor;
mod bad_field;
mod digit;
mod epoch;
mod instance;
mod interval;
mod number;
mod point;
mod word;

pub use actor::{
    actor_word, actors_have_one_text, last_actor, last_arbiter, last_node, node_at, node_word,
};
pub use bad_field::BadField;
pub use digit::hex_value;
pub use epoch::{epoch_word, epochs_have_one_text, last_epoch, push_epoch};
pub use fabric_terms::OutOfMemory;
pub use instance::{instance_at, instances_have_one_text, last_who, push_who, who_word};
pub use interval::{last_ranges, last_span, push_ranges, ranges_have_one_text, ranges_word};
pub use number::{
    last_number, last_optional, number_in, number_word, numbers_have_one_text, optional_word,
    push_number, push_optional,
};
pub use point::{last_point, point_word, points_have_one_text, push_point};
pub use word::{after_word, push_bytes};
