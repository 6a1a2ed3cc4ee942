ghost use Rattle.std.specs.Prelude.{◌≡◌, ◌+◌, ◌<◌, ◌≤◌, [], Some, IfSome, length, not, ◌||◌};
ghost use Rattle.arbiter_quorum.specs.Tallies.{noted, verdict_of};
ghost use Rattle.ring_rules.specs.Links.{is_bare};
ghost use Rattle.link_core.specs.Links.{turn};
ghost use Rattle.link_core.specs.Rulings.{awaits, becomes_heir, discharge_told, judged, made_heir, may_succeed};
ghost use Rattle.link_core.specs.Rulings.{kept_discharged, ruling_seen, ripe_at};
ghost use Rattle.link_core.specs.Limits.{longest_span};

use crate::notes::{LinkNote, LinkNotes, no_notes, one_note};
use arbiter_quorum::Verdict;
use drift_clock::{Bound, wait_of};
use fabric_terms::Why;
use ring_points::{MAX_DRIFT, MAX_GRAIN, MAX_READING, Ruling};
use ring_rules::{Link, LinkState};

/// There is nothing to take over.
fn is_bare(link: &Link) -> bool
    ensures { result ≡ is_bare link.now }
{
    link.held.intervals().is_empty() && link.flight.is_none()
}

fn discharge_told(link: &Link) -> LinkNotes
    ensures { result ≡ discharge_told link.now.state link.now }
{
    match link.state {
        LinkState::Accused => one_note(LinkNote::DischargedNow(link.peer)),
        _ => no_notes(),
    }
}

/// It waits until it is ripe.
pub(crate) fn becomes_heir(slot: &mut Option<Link>, ripe: u64) -> LinkNotes
    ensures { IfSome slot.old (λ l. turn slot.new [] result ≡ becomes_heir l ripe) }
{
    let Some(link) = slot else {
        return no_notes();
    };
    let peer = link.peer;
    link.state = LinkState::Heir;
    link.ripe = ripe;
    one_note(LinkNote::HeirNow(peer, ripe))
}

/// A majority has granted.
fn made_heir(slot: &mut Option<Link>, ripe: u64) -> LinkNotes
    ensures { IfSome slot.old (λ l. turn slot.new [] result ≡ made_heir l ripe (is_bare l)) }
{
    let Some(link) = slot else {
        return no_notes();
    };
    let peer = link.peer;
    if is_bare(link) {
        *slot = None;
        one_note(LinkNote::DischargedNow(peer))
    } else {
        becomes_heir(slot, ripe)
    }
}

/// The node may become heir, by a ruling or by a later round.
fn may_succeed(link: &Link, rounds: u8) -> bool
    ensures { result ≡ may_succeed rounds link.now }
{
    rounds > 1 || link.tally.may_be_heir()
}

/// A majority has not refused.
fn kept_discharged(slot: &mut Option<Link>, rounds: u8) -> LinkNotes
    ensures { IfSome slot.old (λ l. turn slot.new [] result ≡ kept_discharged l (discharge_told l.state l)
        (is_bare l || not (may_succeed rounds l))) }
{
    let Some(link) = slot else {
        return no_notes();
    };
    let notes = discharge_told(link);
    // With nothing to inherit, or no way to become heir, the slot serves another link.
    if is_bare(link) || !may_succeed(link, rounds) {
        *slot = None;
    } else {
        link.state = LinkState::Discharged;
    }
    notes
}

fn judged(slot: &mut Option<Link>, ripe: u64, rounds: u8, verdict: Verdict) -> LinkNotes
    ensures { IfSome slot.old (λ l. turn slot.new [] result ≡ judged rounds l ripe l.state verdict) }
{
    match verdict {
        Verdict::Heir => made_heir(slot, ripe),
        Verdict::Discharged => kept_discharged(slot, rounds),
        // So many arbitrators count this node as accused that another may be its heir.
        Verdict::Lost => one_note(LinkNote::Leave(Why::Lost)),
        Verdict::Open => no_notes(),
    }
}

/// When an heir may take over: the peer's lease and its answers must be over by every clock.
pub(crate) fn ripe_at(now: u64, bound: Bound, answer: u64, link: &Link) -> u64
    requires now { now ≤ MAX_READING }
    requires drift { bound.d ≤ MAX_DRIFT }
    requires grain { bound.grain ≤ MAX_GRAIN }
    requires length { link.now.len + answer ≤ longest_span }
    ensures { result ≡ ripe_at now bound answer link.now }
{
    now + wait_of(bound, link.len + answer)
}

/// Counts a ruling of this arbitrator, and says what the rulings amount to now.
fn note(link: &mut Link, arbitrator: u8, ruling: Ruling) -> Verdict
    requires first { 1 ≤ arbitrator }
    requires last { arbitrator ≤ link.old.tally.arbitrators }
    ensures noted { link.new ≡ record link.old { tally = noted link.old.tally arbitrator ruling } }
    ensures verdict { result ≡ verdict_of link.new.tally }
{
    link.tally.note(arbitrator, ruling)
}

/// The arbitrators' terms at a node: the time for an answer, the bound of clocks, and how many rounds there are.
#[derive(Clone, Copy)]
pub(crate) struct Terms {
    pub answer: u64,
    pub bound: Bound,
    pub rounds: u8,
}

/// It waits for the arbitrators.
fn awaits(state: LinkState) -> bool
    ensures { result ≡ awaits state }
{
    matches!(state, LinkState::Accused | LinkState::Discharged)
}

/// A ruling of this arbitrator about the peer.
pub(crate) fn ruling_seen(
    slot: &mut Option<Link>,
    now: u64,
    terms: Terms,
    arbitrator: u8,
    ruling: Ruling,
) -> LinkNotes
    requires now { now ≤ MAX_READING }
    requires drift { terms.bound.d ≤ MAX_DRIFT }
    requires grain { terms.bound.grain ≤ MAX_GRAIN }
    requires length { IfSome slot.old (λ l. l.len + terms.answer ≤ longest_span) }
    requires first { 1 ≤ arbitrator }
    requires last { IfSome slot.old (λ l. arbitrator ≤ l.tally.arbitrators) }
    ensures { turn slot.new [] result ≡ ruling_seen now terms.bound terms.answer terms.rounds arbitrator ruling slot.old }
{
    let Some(link) = slot else {
        return no_notes();
    };
    if !awaits(link.state) {
        return no_notes();
    }
    // An heir waits from the step in which its majority came, and that may be this one.
    let ripe = ripe_at(now, terms.bound, terms.answer, link);
    let verdict = note(link, arbitrator, ruling);
    judged(slot, ripe, terms.rounds, verdict)
}
