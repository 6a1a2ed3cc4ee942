use arbiter_quorum::Tally;
use heir_rounds::RoundTally;
use ring_points::{Flight, RangeSet, Who};

/// How far a link has come, as one side knows it.
#[derive(Clone, Copy, Debug, PartialEq, Eq)]
pub enum LinkState {
    /// This side has asked the peer's node for a link and is bound to nobody. The slot ends with an Offer, or with
    /// the time of its asking.
    Hello,
    /// This side has accepted a Hello and is bound; the peer may never have seen the Offer. A Take or a Renew makes
    /// the slot Bound, and silence makes it Accused.
    Offered,
    /// Both sides are bound. Each renews its lease, and accuses the other where it can't.
    Bound,
    /// This side was told to part: it has no record of the peer and keeps the fence until the peer's Gone.
    Parting,
    /// This side has accused the peer, hears nothing of it any more, and waits for a majority of arbitrators.
    Accused,
    /// A majority has freed this side of the peer, and another may be the peer's heir, or this side by a later ruling
    /// or round.
    Discharged,
    /// This side is the peer's heir, and takes over once the slot is ripe.
    Heir,
}

/// A link with a peer, as one side keeps it. Times are in ticks of this side's clock.
#[derive(Drop)]
pub struct Link {
    /// The peer; while this side greets, any instance of its node (instance 0).
    pub peer: Who,
    /// This side's number of the session, from 1.
    pub mine: u32,
    /// The peer's number of the session, from 1; 0 while this side greets.
    pub yours: u32,
    pub state: LinkState,
    /// The end of the lease; while this side greets, the end of its asking.
    pub until: u64,
    /// From when on an heir may take over.
    pub ripe: u64,
    /// The latest version of this side's announced ranges that the peer has acknowledged.
    pub acked: u32,
    /// The record: what the peer announced last.
    pub held: RangeSet,
    /// The version of the record.
    pub held_version: u32,
    /// The number of the last flight taken from the peer.
    pub got: u32,
    /// This side's flight to the peer that is not confirmed.
    pub flight: Option<Flight>,
    /// The arbitrators' answers on the peer.
    pub tally: Tally,
    /// The arbitrators' answers to claims of the rounds about the peer.
    pub rounds: RoundTally,
    /// The length of the lease.
    pub len: u64,
    /// The frame version by which the link was agreed: 1 with the configured length, 2 with a length of its own.
    pub wire: u8,
}
