ghost use Rattle.std.specs.Prelude.{◌≡◌, ◌<◌, ◌++◌, [], Some, length};
ghost use Rattle.link_core.specs.Calls.{flight_sent, flight_taken, slot_closed};
ghost use Rattle.link_core.specs.Flights.{gone_seen, is_lost, last_words, stands, transfer_seen};
ghost use Rattle.link_core.specs.Links.{turn, turn_after};

use crate::bodies::{self, say_gone};
use crate::notes::{LinkNote, LinkNotes, no_notes, one_note};
use fabric_terms::{Body, Outbox};
use ring_points::{Flight, OUTBOX_LIMIT};
use ring_rules::{Link, LinkState};

/// A Transfer in this session.
pub(crate) fn transfer_seen(
    i: usize,
    slot: &mut Option<Link>,
    number: u32,
    out: &mut Outbox,
) -> LinkNotes
    requires { length out.old < OUTBOX_LIMIT }
    ensures { turn slot.new out.new result ≡ turn_after out.old (transfer_seen number i slot.old) }
{
    let Some(link) = slot else {
        return no_notes();
    };
    match link.state {
        LinkState::Bound if link.got < number => one_note(LinkNote::Arrived(i)),
        LinkState::Parting => {
            say_gone(link, out);
            no_notes()
        }
        _ => no_notes(),
    }
}

/// What is said to the peer at the end of the slot.
fn last_words(link: &Link, bound: bool, out: &mut Outbox)
    requires { length out.old < OUTBOX_LIMIT }
    ensures { out.new ≡ out.old ++ last_words link.now bound }
{
    let gone = Body::Gone {
        mine: link.mine,
        yours: link.yours,
        got: link.got,
        bound: false,
    };
    bodies::answer(bound, link.peer, gone, out);
}

/// A flight to the peer stands that it did not get.
fn is_lost(link: &Link, got: u32) -> bool
    ensures { result ≡ is_lost got link.now.flight }
{
    match &link.flight {
        Some(flight) => got < flight.number,
        None => false,
    }
}

/// A slot that stands.
fn stands(state: LinkState) -> bool
    ensures { result ≡ stands state }
{
    matches!(
        state,
        LinkState::Offered | LinkState::Bound | LinkState::Parting
    )
}

/// A Gone in this session.
pub(crate) fn gone_seen(
    i: usize,
    slot: &mut Option<Link>,
    got: u32,
    bound: bool,
    out: &mut Outbox,
) -> LinkNotes
    requires { length out.old < OUTBOX_LIMIT }
    ensures { turn slot.new out.new result ≡ turn_after out.old (gone_seen got bound i slot.old) }
{
    let Some(link) = slot else {
        return no_notes();
    };
    if !stands(link.state) {
        return no_notes();
    }
    if is_lost(link, got) {
        return one_note(LinkNote::Return(i));
    }
    last_words(link, bound, out);
    *slot = None;
    one_note(LinkNote::Undo(i))
}

/// A flight of this number was taken.
pub(crate) fn took(slot: &mut Option<Link>, number: u32)
    ensures { turn slot.new [] [] ≡ flight_taken number slot.old }
{
    if let Some(link) = slot {
        link.got = number;
    }
}

/// A flight goes to the peer.
pub(crate) fn put_flight(slot: &mut Option<Link>, flight: &Flight, out: &mut Outbox)
    requires { length out.old < OUTBOX_LIMIT }
    ensures { turn slot.new out.new [] ≡ turn_after out.old (flight_sent flight.now slot.old) }
{
    if let Some(link) = slot {
        out.send(link.peer, bodies::transfer(link, flight));
        link.flight = Some(flight.copy());
    }
}

/// The slot ends, and the peer gets its answer if it wants one.
pub(crate) fn close(slot: &mut Option<Link>, bound: bool, out: &mut Outbox)
    requires { length out.old < OUTBOX_LIMIT }
    ensures { turn slot.new out.new [] ≡ turn_after out.old (slot_closed bound slot.old) }
{
    if let Some(link) = slot {
        last_words(link, bound, out);
        *slot = None;
    }
}
