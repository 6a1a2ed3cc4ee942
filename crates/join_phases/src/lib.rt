//! How far a node has come in the ring, as types: booting, seeking, linked, routing, left.
//!
//! A phase is a value that only its predecessor gives. The transitions of the phases take it, ask for what the step
//! needs (the founding start, a bound link, ranges that are not empty) and give the next one, or hand the same one
//! back; a `Left` has none. `Phase`, which a node keeps, takes each step as its owner says: `bind` and `hold` ask for
//! no link and for no ranges, and `leave` is taken in every phase. So a function that takes a `Routing` is not called
//! for a node that never had ranges, as long as the owner of its `Phase` calls `hold` for owned ranges alone. This
//! crate stands on the range sets and on the reasons for leaving; the token and the node's step stand on it. It
//! promises which transition is given when.
#![tactic(auto)]

mod phases;

pub use fabric_terms::Why;
pub use phases::{Booting, Left, Linked, Phase, Routing, Seeking};
