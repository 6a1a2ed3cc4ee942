ghost use Rattle.std.specs.Prelude.{◌≡◌, ◌+◌, ◌<◌, ◌≤◌, ◌++◌, Some, IfSome, true, length};
ghost use Rattle.heir_rounds.specs.Rounds.{round_noted, round_verdict};
ghost use Rattle.ring_rules.specs.Claims.{owes_round};
ghost use Rattle.link_core.specs.Links.{turn, turn_after};
ghost use Rattle.link_core.specs.Rounds.{claimed_first, claimed_if, claims, kept_seen, round_judged};
ghost use Rattle.link_core.specs.Limits.{longest_span, most_row_messages};

use crate::notes::{LinkNotes, no_notes};
use crate::ruling::{Terms, becomes_heir, ripe_at};
use fabric_terms::{Body, Outbox};
use heir_rounds::RoundVerdict;
use ring_points::{
    ARBITRATORS, MAX_ARBITRATORS, MAX_DRIFT, MAX_GRAIN, MAX_READING, OUTBOX_LIMIT, Who,
};
use ring_rules::{Link, LinkState};

/// Whether the arbitrator has ruled, and has not answered in this round.
fn owes_round(link: &Link, arbitrator: u8) -> bool
    ensures { result ≡ owes_round arbitrator link.now }
{
    link.tally.answered(arbitrator) && !link.rounds.answered(arbitrator)
}

/// The present round is claimed at this arbitrator.
fn claim(link: &Link, arbitrator: u8, out: &mut Outbox)
    requires few { arbitrator ≤ MAX_ARBITRATORS }
    requires room { length out.old < OUTBOX_LIMIT }
    ensures { out.new ≡ out.old ++ claimed_if arbitrator link.now true }
{
    let to = Who {
        actor: ARBITRATORS + u16::from(arbitrator),
        instance: 0,
    };
    let round = link.rounds.round();
    out.send(
        to,
        Body::Claim {
            victim: link.peer,
            round,
        },
    );
}

/// The present round is claimed at this arbitrator, if it owes an answer.
fn claim_owed(link: &Link, arbitrator: u8, out: &mut Outbox)
    requires few { arbitrator ≤ MAX_ARBITRATORS }
    requires room { length out.old + length (claimed_if arbitrator link.now (owes_round arbitrator link.now))
        ≤ OUTBOX_LIMIT }
    ensures { out.new ≡ out.old ++ claimed_if arbitrator link.now (owes_round arbitrator link.now) }
{
    if owes_round(link, arbitrator) {
        claim(link, arbitrator, out);
    }
}

/// The present round is claimed at each of these arbitrators that owes an answer.
fn claim_at_all(link: &Link, arbitrators: u8, out: &mut Outbox)
    requires few { arbitrators ≤ MAX_ARBITRATORS }
    requires room { length out.old + length (claimed_first arbitrators link.now) ≤ OUTBOX_LIMIT }
    ensures { out.new ≡ out.old ++ claimed_first arbitrators link.now }
{
    for k in 0..arbitrators {
        claim_owed(link, k + 1, out);
    }
}

/// The present round is claimed, where there are rounds after the first.
pub(crate) fn claim_round(link: &Link, arbitrators: u8, rounds: u8, out: &mut Outbox)
    requires few { arbitrators ≤ MAX_ARBITRATORS }
    requires room { length out.old + length (claimed_first arbitrators link.now) ≤ OUTBOX_LIMIT }
    ensures { out.new ≡ out.old ++ claims rounds arbitrators link.now }
{
    if rounds > 1 {
        claim_at_all(link, arbitrators, out);
    }
}

/// Counts whom this arbitrator keeps of the round, and says what that amounts to now.
fn note(link: &mut Link, round: u8, arbitrator: u8, claimer: Who) -> RoundVerdict
    requires first { 1 ≤ arbitrator }
    requires last { arbitrator ≤ link.old.rounds.arbitrators }
    ensures noted { link.new ≡ record link.old { rounds = round_noted link.old.rounds round arbitrator claimer } }
    ensures verdict { result ≡ round_verdict link.old.rounds round arbitrator claimer }
{
    link.rounds.note(round, arbitrator, claimer)
}

fn round_judged(
    slot: &mut Option<Link>,
    ripe: u64,
    arbitrators: u8,
    rounds: u8,
    verdict: RoundVerdict,
    out: &mut Outbox,
) -> LinkNotes
    requires few { arbitrators ≤ MAX_ARBITRATORS }
    requires room { length out.old + most_row_messages ≤ OUTBOX_LIMIT }
    ensures { IfSome slot.old (λ l. turn slot.new out.new result ≡ turn_after out.old
        (round_judged rounds arbitrators l ripe verdict)) }
{
    let Some(link) = slot else {
        return no_notes();
    };
    match verdict {
        RoundVerdict::Won => return becomes_heir(slot, ripe),
        RoundVerdict::Next(_) => claim_round(link, arbitrators, rounds, out),
        // No round is left in which this claimer could win.
        RoundVerdict::Over => *slot = None,
        RoundVerdict::Open => {}
    }
    no_notes()
}

/// Whom an arbitrator keeps of a round about the peer.
#[derive(Clone, Copy)]
pub(crate) struct Keeping {
    pub arbitrator: u8,
    pub round: u8,
    pub claimer: Who,
}

/// An arbitrator's answer to a claim of a round about the peer.
pub(crate) fn kept_seen(
    slot: &mut Option<Link>,
    now: u64,
    terms: Terms,
    arbitrators: u8,
    keeping: Keeping,
    out: &mut Outbox,
) -> LinkNotes
    requires now { now ≤ MAX_READING }
    requires drift { terms.bound.d ≤ MAX_DRIFT }
    requires grain { terms.bound.grain ≤ MAX_GRAIN }
    requires length { IfSome slot.old (λ l. l.len + terms.answer ≤ longest_span) }
    requires few { arbitrators ≤ MAX_ARBITRATORS }
    requires room { length out.old + most_row_messages ≤ OUTBOX_LIMIT }
    requires first { 1 ≤ keeping.arbitrator }
    requires last { IfSome slot.old (λ l. keeping.arbitrator ≤ l.rounds.arbitrators) }
    ensures { turn slot.new out.new result ≡ turn_after out.old
        (kept_seen now terms.bound terms.answer terms.rounds arbitrators keeping.arbitrator keeping.round
        keeping.claimer slot.old) }
{
    let Some(link) = slot else {
        return no_notes();
    };
    // Rounds are claimed by whom a majority has discharged: an heir needs none, and before that none is open.
    if link.state != LinkState::Discharged {
        return no_notes();
    }
    let ripe = ripe_at(now, terms.bound, terms.answer, link);
    let verdict = note(link, keeping.round, keeping.arbitrator, keeping.claimer);
    round_judged(slot, ripe, arbitrators, terms.rounds, verdict, out)
}
