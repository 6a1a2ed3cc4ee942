/// The points from `lo` to `hi`, both of them included.
#[derive(Clone, Copy, Debug, PartialEq, Eq, Default)]
pub struct Interval {
    pub lo: u64,
    pub hi: u64,
}
