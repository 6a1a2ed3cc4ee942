use ring_points::RangeSet;

/// A part of the ranges that is frozen for a slot, since this version. Contracts on a token name it.
#[derive(Drop)]
pub struct Freeze {
    pub part: RangeSet,
    pub slot: usize,
    pub version: u32,
}
