//! That every frame which the ring sends, and every report that it tells, has a spelling.
//!
//! The rules speak of plain numbers; a frame has room for some of them. By this crate's law no valid schedule makes an
//! actor send a message that is no frame, so whoever writes frames need not ask. A ring stays in range: whom it names,
//! its sessions, lengths, ends, versions, flights, ranges and rounds; so do the names in an arbitrator's table and in
//! the records that it begins again from; and each row sends and tells only what is. A crate above the ring says that
//! what it does keeps to the ranges too by one `impl` of `InFormat`, and has the law for itself. It stands on the rules
//! of the ring and of the world, and on what a frame is.
#![tactic(auto)]

mod above;
mod laws;

pub use above::InFormat;
pub use laws::{
    frames_are_in_format, frames_are_in_format_with_nothing_above, reports_are_in_range,
};
