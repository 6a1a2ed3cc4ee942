ghost use Rattle.std.specs.Prelude.{◌≡◌, ◌+◌, ◌^◌, ◌<◌, [], Some, IfSome, length, min};
ghost use Rattle.link_core.specs.Links.{turn, turn_after};
ghost use Rattle.link_core.specs.Handshakes.{offer_repeated, offer_taken, hello_repeated, take_seen};

use crate::announce::Announced;
use crate::bodies::{self, say_gone};
use crate::notes::{LinkNote, LinkNotes, no_notes, one_note};
use fabric_terms::{Body, Outbox};
use ring_points::{OUTBOX_LIMIT, Who};
use ring_rules::{Link, LinkState};

/// A Hello of an instance that has a link: one that was accepted before gets its Offer again.
pub(crate) fn hello_repeated(slot: &mut Option<Link>, theirs: u32, out: &mut Outbox)
    requires { length out.old < OUTBOX_LIMIT }
    ensures { turn slot.new out.new [] ≡ turn_after out.old (hello_repeated theirs slot.old) }
{
    if let Some(link) = slot
        && matches!(link.state, LinkState::Offered)
        && link.yours == theirs
    {
        // The first Offer may be lost: whoever greets says Hello until one arrives.
        out.send(link.peer, bodies::offer(link));
    }
}

/// The greeting is answered: the link is bound with the sender, for the smaller of the two lengths.
pub(crate) fn offer_taken(
    slot: &mut Option<Link>,
    now: u64,
    from: Who,
    theirs: u32,
    len: u64,
    out: &mut Outbox,
) -> LinkNotes
    requires room { length out.old < OUTBOX_LIMIT }
    requires times { IfSome slot.old (λ l. now + l.len < 2 ^ 64) }
    ensures { turn slot.new out.new result ≡ turn_after out.old (offer_taken now from theirs len slot.old) }
{
    let Some(link) = slot else {
        return no_notes();
    };
    link.peer = from;
    link.yours = theirs;
    link.state = LinkState::Bound;
    // Both sides must count by one length, so the smaller one holds.
    link.len = link.len.min(len);
    link.until = now + link.len;
    out.send(
        from,
        Body::Take {
            mine: link.mine,
            yours: theirs,
        },
    );
    one_note(LinkNote::BoundNow)
}

/// An Offer in this session: one that was taken before gets its Take again.
pub(crate) fn offer_repeated(slot: &mut Option<Link>, out: &mut Outbox)
    requires { length out.old < OUTBOX_LIMIT }
    ensures { turn slot.new out.new [] ≡ turn_after out.old (offer_repeated slot.old) }
{
    let Some(link) = slot else {
        return;
    };
    match link.state {
        LinkState::Bound => out.send(
            link.peer,
            Body::Take {
                mine: link.mine,
                yours: link.yours,
            },
        ),
        LinkState::Parting => say_gone(link, out),
        _ => {}
    }
}

/// A Take in this session.
pub(crate) fn take_seen(
    slot: &mut Option<Link>,
    now: u64,
    announce: &Announced,
    out: &mut Outbox,
) -> LinkNotes
    requires { length out.old < OUTBOX_LIMIT }
    ensures { turn slot.new out.new result ≡ turn_after out.old (take_seen now announce.now slot.old) }
{
    let Some(link) = slot else {
        return no_notes();
    };
    match link.state {
        LinkState::Offered => {
            // The lease runs since the Offer: whoever accepts is bound before whoever greets relies on it.
            link.state = LinkState::Bound;
            out.send(link.peer, bodies::renew(link, now, announce));
            one_note(LinkNote::BoundNow)
        }
        LinkState::Parting => {
            say_gone(link, out);
            no_notes()
        }
        _ => no_notes(),
    }
}
