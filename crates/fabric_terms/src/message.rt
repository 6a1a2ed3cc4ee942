use crate::bytes::Payload;
use ring_points::{Config, Epoch, Point, RangeSet, Ruling, Who};
use std::default::Default;

/// What goes from one actor to another. `to` has instance 0 for "whichever instance runs".
#[derive(Drop)]
pub struct Message {
    pub from: Who,
    pub to: Who,
    pub body: Body,
}

/// What a message says. `mine` and `yours` are the sender's and the receiver's number of the session.
#[derive(Drop)]
pub enum Body {
    /// Asks for a link with the configured lease.
    Hello {
        mine: u32,
    },
    /// Asks for a link with a lease of `length` ticks.
    HelloFor {
        mine: u32,
        length: u64,
    },
    /// Accepts a Hello; the sender is bound from here on.
    Offer {
        mine: u32,
        yours: u32,
    },
    /// Accepts a HelloFor, with the length agreed.
    OfferFor {
        mine: u32,
        yours: u32,
        length: u64,
    },
    /// Takes an offer; both sides are bound from here on.
    Take {
        mine: u32,
        yours: u32,
    },
    /// Asks for a longer lease: when it was sent by the sender's clock, the version and the ranges that
    /// the sender announces, the last flight that it took, and whether it wants ranges.
    Renew {
        mine: u32,
        yours: u32,
        stamp: u64,
        version: u32,
        got: u32,
        want: bool,
        ranges: RangeSet,
    },
    /// Grants a Renew, with its stamp and version.
    RenewAck {
        mine: u32,
        yours: u32,
        stamp: u64,
        version: u32,
    },
    /// Hands a part of the ring over.
    Transfer {
        mine: u32,
        yours: u32,
        flight: u32,
        ranges: RangeSet,
    },
    /// The sender has no record in this session and never will; it took flights up to `got`. `bound`
    /// says that it is still bound itself and wants an answer.
    Gone {
        mine: u32,
        yours: u32,
        got: u32,
        bound: bool,
    },
    /// Looks for the node that holds a point, hop by hop.
    Seek {
        origin: Who,
        key: Point,
        hops: u8,
    },
    /// The node that holds the point.
    Found {
        key: Point,
        holder: Who,
    },
    /// Asks an arbitrator to rule that the sender may outlive the victim.
    Accuse {
        victim: Who,
    },
    /// An arbitrator's ruling on the receiver's accusation.
    Ruled {
        victim: Who,
        ruling: Ruling,
    },
    /// Asks an arbitrator to be the sender's in a round of heirs.
    Claim {
        victim: Who,
        round: u8,
    },
    /// Whose an arbitrator is in a round of heirs.
    Kept {
        victim: Who,
        round: u8,
        claimer: Who,
    },
    /// Asks an arbitrator to prepare an epoch.
    Prepare {
        partition: u16,
        epoch: Epoch,
    },
    /// The epoch is prepared; the last configuration that was done, if there is one.
    Prepared {
        partition: u16,
        epoch: Epoch,
        done: Option<Config>,
    },
    /// An epoch that is not below this one is prepared.
    NoPrepare {
        partition: u16,
        epoch: Epoch,
        kept: Epoch,
    },
    /// Asks an arbitrator for its vote.
    Vote {
        config: Config,
    },
    /// The configuration that the arbitrator voted for in this epoch.
    Voted {
        partition: u16,
        epoch: Epoch,
        kept: Config,
    },
    /// A greater epoch is prepared.
    NoVote {
        partition: u16,
        epoch: Epoch,
        kept: Epoch,
    },
    /// Asks an arbitrator to keep a configuration as done.
    DoneAsk {
        config: Config,
    },
    /// It is kept.
    DoneKept {
        partition: u16,
        epoch: Epoch,
    },
    /// A greater epoch is prepared.
    NoDone {
        partition: u16,
        epoch: Epoch,
        kept: Epoch,
    },
    /// Asks a replica to take no write of an older epoch.
    Promise {
        partition: u16,
        epoch: Epoch,
    },
    /// The replica has promised; the epoch that it last adopted, and its last entry.
    Promised {
        partition: u16,
        epoch: Epoch,
        at: Epoch,
        last: u32,
    },
    /// Asks a replica to take the log of `origin` up to `last`.
    Sync {
        partition: u16,
        epoch: Epoch,
        origin: u16,
        last: u32,
    },
    /// Asks for one entry.
    Fetch {
        partition: u16,
        epoch: Epoch,
        lsn: u32,
    },
    /// One entry, with the epoch in which it was written.
    Piece {
        partition: u16,
        epoch: Epoch,
        lsn: u32,
        entry_epoch: Epoch,
        text: Payload,
    },
    /// The replica has the log of this epoch, up to `last`.
    Adopted {
        partition: u16,
        epoch: Epoch,
        last: u32,
    },
    /// Asks a replica to take its role of a configuration.
    Activate {
        config: Config,
    },
    /// It has the role.
    Activated {
        partition: u16,
        epoch: Epoch,
    },
    /// One more entry from the primary.
    Append {
        partition: u16,
        epoch: Epoch,
        lsn: u32,
        text: Payload,
    },
    /// The replica's last entry.
    Appended {
        partition: u16,
        epoch: Epoch,
        last: u32,
    },
    /// The replica has promised a greater epoch.
    Older {
        partition: u16,
        epoch: Epoch,
        kept: Epoch,
    },
}

impl Default for Body {
    fn default() -> Self {
        Body::Hello { mine: 0 }
    }
}
