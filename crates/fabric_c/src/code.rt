//! How a word ends. The codes below `NO_ROOM` are the statuses of the program.

/// The reply is whole.
pub const OK: u8 = 0;

/// There was not enough memory.
pub const OUT_OF_MEMORY: u8 = 1;

/// The text is longer than the room.
pub const NO_ROOM: u8 = 32;

/// The bytes are none of those that the word reads.
pub const NOT_READ: u8 = 33;
