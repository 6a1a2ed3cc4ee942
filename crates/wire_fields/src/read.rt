//! Fields at the front of some bytes, and what follows them.

mod actor;
mod number;
mod ranges;
mod unit;

pub use actor::{addressee_at, ruling_at, sender_at, who_at};
pub use number::{
    counted_at, end, flag_at, hops_at, last_at, lease_at, node_at, round_at, session_at, stamp_at,
    u8_at, u16_at, u32_at, u64_at,
};
pub use ranges::{intervals_at, ranges_at};
pub use unit::{config_at, done_at, epoch_at, numbered_at, payload_at, text_at, unit_at};
