//! Frames: what actors send each other, as bytes.
//!
//! A frame is one message in one spelling. This crate reads frames and writes them. It stands on the grammar of frames
//! and on the readers and writers of their fields. What is read is in the grammar, what is written is in it, no frame
//! has two messages and no message two frames; so the layers above speak of messages alone.
#![tactic(auto)]

mod not_frame;
mod read;
mod write;

pub use fabric_terms::{Body, Message, Outbox};
pub use frame_format::{one_spelling, short_spelling};
pub use not_frame::NotFrame;
pub use read::{decode, decode_into};
pub use wire_fields::{read_config_field, read_epoch, read_ranges, read_who};
pub use write::encode;
