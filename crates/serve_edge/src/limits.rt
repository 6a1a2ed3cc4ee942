/// How many connections are taken from a listener at once.
pub const MAX_ADMITTED: usize = 4;

/// Within how many ticks the head of a request comes. A connection without one is closed then.
pub const MAX_HEAD_TICKS: u64 = 2_000;

/// Within how many ticks an answer of the page is taken. A connection that takes longer is closed.
pub const MAX_PAGE_TICKS: u64 = 5_000;

/// For how many ticks a listener that failed is not asked.
pub const MAX_PAUSE_TICKS: u64 = 100;

/// How many bytes of the log are written at once.
pub const MAX_PIECE: usize = 4_096;

/// How often the log, or a parent when the process ends, is written to at once.
pub const MAX_WRITES: usize = 16;

/// How many bytes of a configuration's file are read.
pub const MAX_FILE: usize = 131_075;

/// How many bytes of the file `actor` are read.
pub const MAX_ACTOR_FILE: usize = 1_048_576;

/// How many bytes of a word are shown in the line that refuses it.
pub const MAX_SHOWN: usize = 100;
