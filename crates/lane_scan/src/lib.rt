//! Searches over many points at once, in lanes of eight.
//!
//! Routing asks for the known point that is nearest to a key, and units are selected by a range of
//! points. Both read a whole slice of points. Here eight points go at a time by `std::simd`, and a plain
//! loop takes the rest. The crate stands on the distances of `ring_points`, and promises above that each
//! search answers as its plain definition does, for a slice of any length.
#![tactic(auto)]

mod laws;
mod mask;
mod near;
mod span;

pub use laws::no_other_is_nearer;
pub use mask::{is_marked, mask_in};
pub use near::nearest;
