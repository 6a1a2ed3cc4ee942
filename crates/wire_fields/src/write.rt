//! Fields, written from a place on. Each call gives the place after what it wrote.

mod field;
mod number;

pub use field::{
    put_claim, put_config, put_done, put_epoch, put_numbered, put_payload, put_ranges, put_ruling,
    put_unit, put_who,
};
pub use number::{put_flag, put_session, put_u8, put_u16, put_u32, put_u64};
