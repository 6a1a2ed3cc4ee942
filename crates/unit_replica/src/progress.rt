ghost use Rattle.std.specs.Prelude.{◌≡◌, ◌≤◌, if◌then◌else◌, length, map, max, true};
ghost use Rattle.replica_core.specs.Roles.{is_member};
ghost use Rattle.unit_rules.specs.Progress.{confirmed_by, confirmed_of, first_progress, is_confirmed, most_confirmed};
ghost use Rattle.unit_rules.specs.Progress.{peer_confirms, reported_of};

use arbiter_quorum::is_majority;
use arrayvec::ArrayVec;
use ring_points::{Config, MAX_MEMBERS};
use std::marker::Model;
use unit_rules::PeerProgress;

/// The most other members of a partition's configuration.
pub const MAX_PEERS: usize = MAX_MEMBERS - 1;

/// What a primary knows of its partition's log.
#[derive(Drop)]
pub(crate) struct ReplicationProgress {
    /// The other members, rising by node. There are at most `MAX_PEERS`, though there is room for one more.
    peers: ArrayVec<PeerProgress, MAX_MEMBERS>,
    /// The last entry at the primary's activation.
    begun: u32,
    /// The last committed entry.
    committed: u32,
}

impl Model for ReplicationProgress {
    ghost use Rattle.std.specs.Prelude.{◌≤◌, length};
    ghost use Rattle.unit_rules.specs.ReplicaStates.{ReplicationProgress};
    ghost use Rattle.unit_replica.specs.Limits.{most_peers};

    ghost Value = { ReplicationProgress };

    ghost view = { λ l. record { peers = l.peers.items; begun = l.begun; committed = l.committed } };

    ghost invariant = { λ l. length l.peers.items ≤ most_peers };
}

/// A member, once the node has confirmed the entries up to `last`: the entry behind them is its next one. Entries
/// beyond the primary's own last one do not count as confirmed.
fn confirmed_peer(peer: PeerProgress, node: u16, last: u32, own: u32) -> PeerProgress
    ensures { result ≡ peer_confirms node last own peer }
{
    if peer.node != node {
        return peer;
    }
    let confirmed = if last <= own {
        peer.confirmed.max(last)
    } else {
        peer.confirmed
    };
    PeerProgress {
        node,
        confirmed,
        next: u64::from(last) + 1,
    }
}

/// The members, once the node has confirmed the entries up to `last`.
fn confirmed_peers(
    peers: &[PeerProgress],
    node: u16,
    last: u32,
    own: u32,
) -> ArrayVec<PeerProgress, MAX_MEMBERS>
    requires { length peers.now ≤ MAX_PEERS }
    ensures peers { result.items ≡ map (peer_confirms node last own) peers.now }
    ensures few { length result.items ≤ MAX_PEERS }
{
    let mut told = ArrayVec::new();
    for peer in peers {
        told.push(confirmed_peer(*peer, node, last, own));
    }
    told
}

/// Whether a majority has confirmed the entry `lsn`.
fn is_confirmed(confirmed: &[u32], lsn: u32) -> bool
    requires { length confirmed.now ≤ MAX_MEMBERS }
    ensures { result ≡ is_confirmed confirmed.now lsn }
{
    let count = confirmed.iter().filter(|last| lsn <= **last).count();
    is_majority(confirmed.len() as u8, count)
}

/// The greater of two entries, where a majority has confirmed the second.
fn greater_confirmed(most: u32, confirmed: &[u32], lsn: u32) -> u32
    requires { length confirmed.now ≤ MAX_MEMBERS }
    ensures { result ≡ (if is_confirmed confirmed.now lsn then max most lsn else most) }
{
    if is_confirmed(confirmed, lsn) {
        most.max(lsn)
    } else {
        most
    }
}

/// The greatest entry that a majority has confirmed. `confirmed` has the last confirmed entry of each member.
#[tactic(auto, using(crate::proofs::Confirmed::greatest_more))]
fn most_confirmed(confirmed: &[u32]) -> u32
    requires { length confirmed.now ≤ MAX_MEMBERS }
    ensures { result ≡ most_confirmed confirmed.now }
{
    let mut most = 0;
    for lsn in confirmed {
        most = greater_confirmed(most, confirmed, *lsn);
    }
    most
}

impl ReplicationProgress {
    /// The progress of a primary at its activation. Its own entries up to `last` are committed. No member has confirmed
    /// an entry yet, and the next entry of each is the one behind `last`.
    pub(crate) fn first(me: u16, config: &Config, last: u32) -> Self
        requires few { length config.now.members ≤ MAX_MEMBERS }
        requires member { is_member me config.now ≡ true }
        ensures { result ≡ first_progress me config.now last }
    {
        let mut peers = ArrayVec::new();
        for node in config.members.as_slice() {
            if *node != me {
                peers.push(PeerProgress {
                    node: *node,
                    confirmed: 0,
                    next: u64::from(last) + 1,
                });
            }
        }
        ReplicationProgress {
            peers,
            begun: last,
            committed: last,
        }
    }

    /// The other members, rising.
    pub(crate) fn peers(&self) -> &[PeerProgress]
        ensures peers { result.now ≡ self.now.peers }
        ensures few { length result.now ≤ MAX_PEERS }
    {
        self.peers.as_slice()
    }

    /// The last committed entry.
    pub(crate) fn committed(&self) -> u32
        ensures { result ≡ self.now.committed }
    {
        self.committed
    }

    /// The last entry that the primary reported committed since its activation, or 0 if it reported none.
    pub(crate) fn reported(&self) -> u32
        ensures { result ≡ reported_of self.now }
    {
        if self.begun < self.committed {
            self.committed
        } else {
            0
        }
    }

    /// A member confirms its entries up to `last`. The primary's last entry is `own`.
    pub(crate) fn confirm(&mut self, node: u16, last: u32, own: u32)
        ensures { self.new ≡ confirmed_by node last own self.old }
    {
        self.peers = confirmed_peers(self.peers.as_slice(), node, last, own);
    }

    /// Commits the entries up to `lsn`.
    pub(crate) fn commit(&mut self, lsn: u32)
        ensures { self.new ≡ record self.old { committed = lsn } }
    {
        self.committed = lsn;
    }

    /// The greatest entry that a majority of the members has confirmed. The primary counts with its last entry, `own`.
    pub(crate) fn most_confirmed(&self, own: u32) -> u32
        ensures { result ≡ most_confirmed (confirmed_of self.now own) }
    {
        let mut confirmed: ArrayVec<u32, MAX_MEMBERS> = ArrayVec::new();
        confirmed.push(own);
        for peer in self.peers.as_slice() {
            confirmed.push(peer.confirmed);
        }
        most_confirmed(confirmed.as_slice())
    }
}
