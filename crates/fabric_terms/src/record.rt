use crate::bytes::Payload;
use ring_points::{Config, Epoch, Who};
use std::default::Default;

/// What an actor keeps, synced before anything that it says rests on it.
#[derive(Drop)]
pub enum Record {
    /// A node's instance began.
    Boot {
        instance: u32,
    },
    /// The first accuser of a victim, at an arbitrator.
    AccusedBy {
        victim: Who,
        first: Who,
    },
    /// An arbitrator prepared an epoch for a node.
    PreparedBy {
        partition: u16,
        epoch: Epoch,
        preparer: Who,
    },
    /// An arbitrator's vote.
    VotedFor {
        config: Config,
    },
    /// The done configuration of the greatest epoch.
    DoneFor {
        config: Config,
    },
    /// A replica's promise.
    PromisedAt {
        partition: u16,
        epoch: Epoch,
    },
    /// An entry that a replica accepted.
    Wrote {
        partition: u16,
        epoch: Epoch,
        lsn: u32,
        text: Payload,
    },
    /// An entry that a replica collected for an epoch.
    Incoming {
        partition: u16,
        epoch: Epoch,
        lsn: u32,
        entry_epoch: Epoch,
        text: Payload,
    },
    /// A replica made its own log, or the collected one, that of an epoch.
    AdoptedAt {
        partition: u16,
        epoch: Epoch,
        last: u32,
        own: bool,
    },
    /// The claimer of a round of heirs, at an arbitrator.
    ClaimedBy {
        victim: Who,
        round: u8,
        claimer: Who,
    },
}

impl Default for Record {
    fn default() -> Self {
        Record::Boot { instance: 0 }
    }
}
