//! Sealed frames: whoever lacks the key of a cluster makes no frame that its actors take.
//!
//! A sealed frame is a frame behind a keyed hash (HMAC-SHA-256, RFC 2104) of the configuration's checksum, the sender,
//! the receiver and the frame. What was sealed for another actor, by another key or for another configuration is junk.
//! This crate decides what a seal is, and opens exactly the bytes that are sealed. That nobody without the key can seal
//! a frame is cryptography, and no theorem. It stands on the hash of the kit.
#![tactic(auto)]

mod key;
mod keyed_hash;
mod laws;
mod limits;
mod number;
mod same;
mod sealed_links;

pub use key::SealKey;
pub use keyed_hash::hmac;
pub use laws::{seals_fit, what_is_opened_was_sealed, what_is_sealed_opens};
pub use limits::{MAX_KEY, MIN_ADDRESSED, MIN_KEY, SEAL_BYTES};
pub use number::{receiver_of, sender_of};
pub use sealed_links::SealedLinks;
