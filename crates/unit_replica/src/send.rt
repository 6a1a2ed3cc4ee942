ghost use Rattle.std.specs.Prelude.{◌≡◌, ◌+◌, ◌≤◌, ◌∷◌, ◌++◌, ◌&&◌, [], flat_map, length, map, not};
ghost use Rattle.ring_points.specs.Epochs.{is_older};
ghost use Rattle.unit_rules.specs.Deeds.{frames_of};
ghost use Rattle.unit_rules.specs.Progress.{is_primary};
ghost use Rattle.unit_rules.specs.ReplicaStates.{entry_at};
ghost use Rattle.unit_rules.specs.Writes.{append_to, entry_sent, state_fired};

use crate::fetch::entry_at;
use crate::named_replica::NamedReplica;
use crate::progress::MAX_PEERS;
use crate::replica_state::ReplicaState;
use fabric_terms::{Body, Outbox, Payload};
use replica_core::Role;
use ring_points::{Epoch, MAX_WRITE, OUTBOX_LIMIT, Who};
use unit_rules::PeerProgress;

/// Whether a replica takes writes: it is a primary, and has promised no epoch above its own.
pub(crate) fn takes_writes(replica: &NamedReplica) -> bool
    ensures { result ≡ (is_primary replica.now.role && not (is_older replica.now.at replica.now.promised)) }
{
    replica.role() == Role::Primary && !(replica.at() < replica.promised())
}

/// Sends an entry to a member.
pub(crate) fn append_to(
    epoch: Epoch,
    replica: &NamedReplica,
    lsn: u32,
    text: &[u8],
    peer: &PeerProgress,
    out: &mut Outbox,
)
    requires room { length out.old + 1 ≤ OUTBOX_LIMIT }
    requires text { length text.now ≤ MAX_WRITE }
    ensures { out.new ≡ out.old ++ frames_of (append_to epoch replica.now lsn text.now peer.now ∷ []) }
{
    let to = Who {
        actor: peer.node,
        instance: 0,
    };
    let body = Body::Append {
        partition: replica.partition(),
        epoch,
        lsn,
        text: Payload::from_slice(text),
    };
    out.send(to, body);
}

/// Sends an entry to each of these members.
pub(crate) fn append_to_all(
    epoch: Epoch,
    replica: &NamedReplica,
    lsn: u32,
    text: &[u8],
    peers: &[PeerProgress],
    out: &mut Outbox,
)
    requires room { length out.old + length peers.now ≤ OUTBOX_LIMIT }
    requires text { length text.now ≤ MAX_WRITE }
    ensures sent { out.new ≡ out.old ++ frames_of (map (append_to epoch replica.now lsn text.now) peers.now) }
    ensures few { length out.new ≤ length out.old + length peers.now }
{
    for peer in peers {
        append_to(epoch, replica, lsn, text, peer, out);
    }
}

/// Sends a member its next entry, if the log has that entry.
fn send_next(replica: &NamedReplica, peer: &PeerProgress, out: &mut Outbox)
    requires room { length out.old + 1 ≤ OUTBOX_LIMIT }
    ensures sent { out.new ≡ out.old ++ frames_of
        (entry_sent replica.now peer.now (entry_at peer.now.next replica.now.log)) }
    ensures one { length out.new ≤ length out.old + 1 }
{
    if let Some(entry) = entry_at(peer.next, replica.log()) {
        append_to(
            replica.at(),
            replica,
            peer.next as u32,
            entry.bytes.as_slice(),
            peer,
            out,
        );
    }
}

/// Sends each of these members its next entry, if the log has that entry.
#[tactic(auto, using(unit_desk::proofs::Deeds::deeds_append))]
fn send_all_next(replica: &NamedReplica, peers: &[PeerProgress], out: &mut Outbox)
    requires { length out.old + length peers.now ≤ OUTBOX_LIMIT }
    ensures sent { out.new ≡ out.old ++ frames_of
        (flat_map (λ p. entry_sent replica.now p (entry_at p.next replica.now.log)) peers.now) }
    ensures few { length out.new ≤ length out.old + length peers.now }
{
    for peer in peers {
        send_next(replica, peer, out);
    }
}

/// A firing: a primary sends each other member its next entry, if the log has that entry. Each other member is sent at
/// most one message.
#[tactic(auto, unfolding(unit_rules::specs::Writes::state_fired))]
pub(crate) fn state_fired(state: &ReplicaState, out: &mut Outbox)
    requires { length out.old + MAX_PEERS ≤ OUTBOX_LIMIT }
    ensures sent { out.new ≡ out.old ++ frames_of (state_fired state.now) }
    ensures few { length out.new ≤ length out.old + MAX_PEERS }
{
    if !takes_writes(&state.replica) {
        return;
    }
    if let Some(progress) = &state.progress {
        send_all_next(&state.replica, progress.peers(), out);
    }
}
