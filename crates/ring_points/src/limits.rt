/// The greatest reading of a clock, and the greatest true time of a schedule, in ticks.
pub const MAX_READING: u64 = 1_000_000_000_000_000;

/// The shortest lease, in ticks.
pub const MIN_LEASE: u64 = 10;

/// The longest lease, and the longest time for an answer, in ticks.
pub const MAX_LEASE: u64 = 1_000_000_000;

/// The greatest drift of a clock, in ticks per thousand.
pub const MAX_DRIFT: u64 = 100;

/// The greatest grain of a clock, in ticks.
pub const MAX_GRAIN: u64 = 1_000_000;

/// The most nodes of a configuration.
pub const MAX_NODES: usize = 64;

/// The greatest number of a node. The least is 1.
pub const MAX_NODE_NUMBER: u16 = 999;

/// The most fault domains, which have the numbers from 1.
pub const MAX_DOMAINS: usize = 64;

/// The most arbitrators of a configuration, which have the numbers from 1.
pub const MAX_ARBITRATORS: usize = 9;

/// The most rounds of heirs about one victim.
pub const MAX_ROUNDS: u8 = 8;

/// The most intervals of a range set.
pub const MAX_INTERVALS: usize = 32;

/// The most hops of a search.
pub const MAX_HOPS: u8 = 64;

/// The greatest number of an instance, a session, a version, a flight, a frame, an entry, and of each part of an epoch.
pub const MAX_COUNTER: u64 = 4_294_967_295;

/// The most partitions: a partition's number has 16 bits.
pub const MAX_PARTITIONS: usize = 65_536;

/// The most members of a partition's configuration.
pub const MAX_MEMBERS: usize = 7;

/// The most entries of a replica's log.
pub const MAX_LOG_ENTRIES: u32 = 100_000;

/// The most bytes of a write.
pub const MAX_WRITE: usize = 512;

/// The most bytes of a name.
pub const MAX_NAME: usize = 64;

/// The most bytes of the value of a name.
pub const MAX_NAME_VALUE: usize = 400;

/// The most names of one answer.
pub const MAX_LISTED_NAMES: usize = 64;

/// The most bytes of a frame.
pub const FRAME_LIMIT: usize = 1200;

/// The most messages of a ring's step.
pub const OUTBOX_LIMIT: usize = 192;

/// The most reports of a ring's step.
pub const MAX_RING_REPORTS: usize = 64;

/// The most reports of a node's step.
pub const MAX_STEP_REPORTS: usize = 72;

// Each node has its own number.
const _: () = prove!(MAX_NODES <= MAX_NODE_NUMBER as usize);

// A lease that begins at the last reading ends within 64 bits.
const _: () = prove!(MIN_LEASE <= MAX_LEASE && MAX_LEASE <= MAX_READING);

// A write holds `set `, a name, a blank and the name's value.
const _: () = prove!(4 + MAX_NAME + 1 + MAX_NAME_VALUE <= MAX_WRITE);

// A frame holds a write, and the 40 bytes of its head and of its other fields.
const _: () = prove!(MAX_WRITE + 40 <= FRAME_LIMIT);

// A step asks all arbitrators about one victim.
const _: () = prove!(MAX_ARBITRATORS <= OUTBOX_LIMIT);

// A node's step reports what the ring's step does, and more.
const _: () = prove!(MAX_RING_REPORTS <= MAX_STEP_REPORTS);
