/// How many bytes a line may have.
pub const MAX_LINE: usize = 4_096;

/// How many bytes line 1 may have.
pub const MAX_FIRST_LINE: usize = 65_536;

/// How many lines a source may have.
pub const MAX_LINES: u64 = 2_000_000;
