ghost use Rattle.std.specs.Prelude.{◌≡◌, ◌+◌, ◌<◌, ◌≤◌, ◌++◌, Some, IfSome, length, option_map};
ghost use Rattle.arbiter_quorum.specs.Tallies.{has_answered};
ghost use Rattle.link_core.specs.Links.{turn, turn_after};
ghost use Rattle.link_core.specs.Firing.{accused_by, asked, asked_if, discharged_end, is_over, spoken, transfer_again};
ghost use Rattle.link_core.specs.Limits.{latest_end, most_row_messages};

use crate::announce::Announced;
use crate::bodies::{self, say_gone};
use crate::notes::{LinkNote, LinkNotes, no_notes, one_note};
use crate::rounds::claim_round;
use arbiter_quorum::Tally;
use fabric_terms::{Body, Outbox};
use heir_rounds::RoundTally;
use ring_points::{ARBITRATORS, MAX_ARBITRATORS, MAX_LEASE, MAX_ROUNDS, OUTBOX_LIMIT, Who};
use ring_rules::{Link, LinkState};

/// What a firing at one slot goes by: the reading, the time for an answer, and how many arbitrators and rounds there
/// are.
#[derive(Clone, Copy)]
pub(crate) struct Firing {
    pub reading: u64,
    pub answer: u64,
    pub arbitrators: u8,
    pub rounds: u8,
}

/// A slot with a lease, at its end.
pub(crate) fn is_over(link: &Link, now: u64) -> bool
    ensures { result ≡ is_over now link.now }
{
    match link.state {
        LinkState::Offered | LinkState::Bound | LinkState::Parting => link.until <= now,
        _ => false,
    }
}

/// An arbitrator that has not answered is asked about the peer.
fn ask(link: &Link, arbitrator: u8, out: &mut Outbox)
    requires few { arbitrator ≤ MAX_ARBITRATORS }
    requires room { length out.old < OUTBOX_LIMIT }
    ensures asked { out.new ≡ out.old ++ asked_if arbitrator link.now.peer
        (has_answered arbitrator link.now.tally.answers) }
    ensures room { length out.new ≤ length out.old + 1 }
{
    if !link.tally.answered(arbitrator) {
        let to = Who {
            actor: ARBITRATORS + u16::from(arbitrator),
            instance: 0,
        };
        out.send(to, Body::Accuse { victim: link.peer });
    }
}

/// Each arbitrator that has not answered is asked about the peer.
pub(crate) fn ask_arbiters(link: &Link, arbitrators: u8, out: &mut Outbox)
    requires few { arbitrators ≤ MAX_ARBITRATORS }
    requires room { length out.old + most_row_messages ≤ OUTBOX_LIMIT }
    ensures { out.new ≡ out.old ++ asked arbitrators link.now }
{
    for k in 0..arbitrators {
        ask(link, k + 1, out);
    }
}

/// The peer of the slot is accused: the arbitrators are asked anew. It gives the peer.
pub(crate) fn accuse(
    slot: &mut Option<Link>,
    me: Who,
    arbitrators: u8,
    rounds: u8,
    out: &mut Outbox,
) -> Option<Who>
    requires few { arbitrators ≤ MAX_ARBITRATORS }
    requires room { length out.old + most_row_messages ≤ OUTBOX_LIMIT }
    ensures slot { slot.new ≡ option_map (accused_by me arbitrators rounds) slot.old }
    ensures peer { result ≡ option_map (λ l. l.peer) slot.old }
    ensures sent { IfSome slot.old (λ l. out.new ≡ out.old ++ asked arbitrators (accused_by me arbitrators rounds l)) }
{
    let link = slot.as_mut()?;
    link.state = LinkState::Accused;
    // Only what arbitrators answer to this accusation counts.
    link.tally = Tally::new(me, link.peer, arbitrators);
    link.rounds = RoundTally::new(me, arbitrators, rounds);
    ask_arbiters(link, arbitrators, out);
    Some(link.peer)
}

/// When a discharged slot ends: each round had its time after the peer's fence.
fn discharged_end(link: &Link, firing: &Firing) -> u64
    requires rounds { firing.now.rounds ≤ MAX_ROUNDS }
    requires answer { firing.now.answer ≤ MAX_LEASE }
    requires times { link.now.until ≤ latest_end }
    requires length { link.now.len ≤ MAX_LEASE }
    ensures { result ≡ discharged_end firing.now.answer firing.now.rounds link.now }
{
    let more = u64::from(firing.rounds.saturating_sub(1));
    link.until + firing.answer + more * (link.len + firing.answer)
}

fn transfer_again(link: &Link, out: &mut Outbox)
    requires { length out.old < OUTBOX_LIMIT }
    ensures { out.new ≡ out.old ++ transfer_again link.now link.now.flight }
{
    if let Some(flight) = &link.flight {
        out.send(link.peer, bodies::transfer(link, flight));
    }
}

/// What a slot says that need not accuse.
pub(crate) fn spoken(
    i: usize,
    slot: &mut Option<Link>,
    firing: &Firing,
    announce: &Announced,
    out: &mut Outbox,
) -> LinkNotes
    requires few { firing.now.arbitrators ≤ MAX_ARBITRATORS }
    requires room { length out.old + most_row_messages ≤ OUTBOX_LIMIT }
    requires rounds { firing.now.rounds ≤ MAX_ROUNDS }
    requires answer { firing.now.answer ≤ MAX_LEASE }
    requires times { IfSome slot.old (λ l. l.until ≤ latest_end) }
    requires length { IfSome slot.old (λ l. l.len ≤ MAX_LEASE) }
    ensures { IfSome slot.old (λ l. turn slot.new out.new result ≡ turn_after out.old
        (spoken firing.now.reading announce.now firing.now.answer firing.now.rounds firing.now.arbitrators i l l.state)) }
{
    let Some(link) = slot else {
        return no_notes();
    };
    match link.state {
        LinkState::Hello if link.until <= firing.reading => *slot = None,
        LinkState::Hello => out.send(link.peer, bodies::hello(link)),
        LinkState::Offered => out.send(link.peer, bodies::offer(link)),
        LinkState::Bound => {
            out.send(link.peer, bodies::renew(link, firing.reading, announce));
            // A flight stands until the peer confirms it or gives it back, so it is sent until then.
            transfer_again(link, out);
        }
        LinkState::Parting => say_gone(link, out),
        LinkState::Accused => ask_arbiters(link, firing.arbitrators, out),
        LinkState::Discharged if discharged_end(link, firing) <= firing.reading => *slot = None,
        LinkState::Discharged => {
            ask_arbiters(link, firing.arbitrators, out);
            claim_round(link, firing.arbitrators, firing.rounds, out);
        }
        LinkState::Heir if link.ripe <= firing.reading => return one_note(LinkNote::Ripe(i)),
        LinkState::Heir => {}
    }
    no_notes()
}
