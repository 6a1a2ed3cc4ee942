/// How many bytes a key has at least.
pub const MIN_KEY: usize = 32;

/// How many bytes a key may have.
pub const MAX_KEY: usize = 4_096;

/// How many bytes stand before a sealed frame.
pub const SEAL_BYTES: usize = 34;

/// How many bytes a datagram has at least of which the receiver's number can be read.
pub const MIN_ADDRESSED: usize = 11;
