use ring_points::{Config, Epoch};

/// What a manager is commanded.
#[derive(Clone, Copy)]
pub enum Kind {
    /// A new partition with this many replicas.
    Create(u8),
    /// The primary's role moves to this member.
    Swap(u16),
    /// The partition has this many replicas, placed anew.
    Heal(u8),
    /// The partition goes on with this node's replica alone. What only others have is lost.
    Lose(u16),
}

/// What a reconfiguration is for.
#[derive(Clone, Copy)]
pub struct Task {
    pub partition: u16,
    /// The epoch of the configuration that is to come.
    pub epoch: Epoch,
    pub kind: Kind,
    /// How many arbitrators there are.
    pub arbitrators: u8,
}

/// What a replica answers to a Promise: the epoch of its log, and its last entry.
#[derive(Clone, Copy)]
pub struct Standing {
    pub at: Epoch,
    pub last: u32,
}

/// How a phase ends.
#[derive(Drop)]
pub enum Next {
    /// The epoch is prepared; the configuration that was done last, if there is one.
    Prepared(Option<Config>),
    /// The old primary has promised, and takes no writes any more.
    Moved,
    /// The configuration to propose, and whose log up to which entry its members are to have.
    Chosen {
        config: Config,
        origin: u16,
        last: u32,
    },
    /// The arbitrators decided this configuration.
    Decided(Config),
    /// No configuration can get a majority any more.
    Split,
    /// The primary and a majority of the members have the log.
    Copied,
    /// A majority of the arbitrators keeps the configuration as done.
    Stored,
    /// The primary and a majority of the members have their roles.
    Activated(Config),
}
