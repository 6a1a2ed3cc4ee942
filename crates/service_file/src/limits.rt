/// The most partitions that a service object declares.
pub const MAX_DECLARED: usize = 256;
