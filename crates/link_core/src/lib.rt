//! The links of a node: sessions with peers, and the leases that bind both sides.
//!
//! A link begins by a handshake, lives by renewals, moves ranges by flights, and ends by Gone or by an accusation
//! that the arbitrators decide. This crate keeps the slots of a node, the number of its next session and the
//! instances that it has accused; it does the rows of frames and firings on them, and names in notes what is left to
//! the layer above, which has the phase, the token and the reports. It stands on messages, on the tally of an
//! accusation and on the bound of clocks. It promises that each call makes exactly what the rules say, that a row and
//! what its notes name are the row of the ring's rules, and that no call takes memory.
#![tactic(auto)]

mod announce;
mod bodies;
mod deadlines;
mod find;
mod firing;
mod flight;
mod handshake;
mod laws;
mod links;
mod notes;
mod part;
mod refusal;
mod renewal;
mod rounds;
mod ruling;
mod settings;

pub use announce::{Announce, Announced};
pub use laws::{
    a_firing_is_its_row, a_frame_is_its_row, a_greeting_is_its_row,
    constants_are_the_limits_of_the_rules, parting_is_its_row,
};
pub use links::{Links16, MAX_ACCUSED, SLOTS};
pub use notes::{LinkNote, LinkNotes, MAX_NOTES};
pub use refusal::LinkRefusal;
pub use ring_rules::{Link, LinkState};
pub use settings::LinkSettings;
