use crate::counters::Counters;

/// How many states of a link there are.
pub const LINK_STATES: usize = 7;

/// How many roles there are.
pub const ROLES: usize = 4;

/// A number of a partition.
#[derive(Clone, Copy, Debug, PartialEq, Eq)]
pub struct PartitionGauge {
    pub partition: u16,
    pub number: u64,
}

/// The numbers of the page. The process counts as it goes on, and sets the gauges before an answer.
#[derive(Drop)]
pub struct Counts {
    pub counters: Counters,
    /// Links by their state, in the order of `LinkState`.
    pub links: [u64; LINK_STATES],
    /// The share of the ring that is owned, in millionths.
    pub share: u64,
    /// The fence less the reading, in ticks; None without a fence.
    pub fence_left: Option<u64>,
    pub routing: bool,
    pub manages: bool,
    pub sealed: bool,
    /// Bytes of the file of records.
    pub record_bytes: u64,
    /// Replicas by their role, in the order of `Role`.
    pub replicas: [u64; ROLES],
    /// Of each declared partition the entries of the own log, and as a primary the committed ones.
    pub entries: Vec<PartitionGauge>,
    pub committed: Vec<PartitionGauge>,
    /// For how many ticks a reconfiguration is under way.
    pub changing: Vec<PartitionGauge>,
    /// For how many ticks point 0 was neither held here nor found.
    pub without_manager: u64,
    pub connections: u64,
    pub watchers: u64,
    /// Frames that wait for a parent.
    pub held_frames: u64,
    /// Of the configuration.
    pub checksum: [u8; 32],
    /// Of the program.
    pub version: Vec<u8>,
    pub instance: u32,
}
