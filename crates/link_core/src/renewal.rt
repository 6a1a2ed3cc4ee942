ghost use Rattle.std.specs.Prelude.{◌≡◌, ◌+◌, ◌^◌, ◌<◌, ◌∷◌, ◌++◌, [], IfSome, length};
ghost use Rattle.fabric_terms.specs.declared.message.Body.TheVariants as body;
ghost use Rattle.ring_rules.specs.Links.{renewed};
ghost use Rattle.link_core.specs.Links.{turn, turn_after};
ghost use Rattle.link_core.specs.Renewals.{ack_seen, renew_seen, wanted_if};

use crate::bodies::say_gone;
use crate::notes::{LinkNote, LinkNotes, no_notes, one_note, two_notes};
use fabric_terms::{Body, Outbox};
use ring_points::{OUTBOX_LIMIT, RangeSet};
use ring_rules::{Link, LinkState};

/// What a Renew says beside the numbers of its session.
#[derive(Drop)]
pub(crate) struct Renewal<'a> {
    pub stamp: u64,
    pub version: u32,
    pub got: u32,
    pub want: bool,
    pub ranges: &'a RangeSet,
}

/// The link is bound; a greater version replaces the record, and the flight that the peer has got stands no more.
fn renew(link: &mut Link, version: u32, got: u32, ranges: &RangeSet)
    ensures { link.new ≡ renewed link.old version got ranges.now }
{
    link.state = LinkState::Bound;
    // Frames come late and in any order: an older one must not bring back what the peer has given away since.
    if link.held_version < version {
        link.held = ranges.copy();
        link.held_version = version;
    }
    // The peer has taken the flight, so it can never return.
    if matches!(&link.flight, Some(flight) if flight.number <= got) {
        link.flight = None;
    }
}

fn acknowledge(link: &Link, renewal: &Renewal, out: &mut Outbox)
    requires { length out.old < OUTBOX_LIMIT }
    ensures { out.new ≡ out.old ++ (
      link.now.peer,
      body.RenewAck link.now.mine link.now.yours renewal.now.stamp
          renewal.now.version,
    ) ∷ [] }
{
    out.send(
        link.peer,
        Body::RenewAck {
            mine: link.mine,
            yours: link.yours,
            stamp: renewal.stamp,
            version: renewal.version,
        },
    );
}

fn wanted(want: bool, i: usize) -> LinkNotes
    ensures { result ≡ wanted_if want i }
{
    if want {
        one_note(LinkNote::Wanted(i))
    } else {
        no_notes()
    }
}

fn bound_and_wanted(want: bool, i: usize) -> LinkNotes
    ensures { result ≡ LinkNote.BoundNow ∷ wanted_if want i }
{
    if want {
        two_notes(LinkNote::BoundNow, LinkNote::Wanted(i))
    } else {
        one_note(LinkNote::BoundNow)
    }
}

/// A Renew in this session.
pub(crate) fn renew_seen(
    i: usize,
    slot: &mut Option<Link>,
    renewal: &Renewal,
    out: &mut Outbox,
) -> LinkNotes
    requires { length out.old < OUTBOX_LIMIT }
    ensures { turn slot.new out.new result ≡ turn_after out.old
        (renew_seen renewal.now.stamp renewal.now.version renewal.now.got renewal.now.want renewal.now.ranges.now i
        slot.old) }
{
    let Some(link) = slot else {
        return no_notes();
    };
    match link.state {
        LinkState::Offered => {
            renew(link, renewal.version, renewal.got, renewal.ranges);
            acknowledge(link, renewal, out);
            bound_and_wanted(renewal.want, i)
        }
        LinkState::Bound => {
            renew(link, renewal.version, renewal.got, renewal.ranges);
            acknowledge(link, renewal, out);
            wanted(renewal.want, i)
        }
        LinkState::Parting => {
            say_gone(link, out);
            no_notes()
        }
        _ => no_notes(),
    }
}

/// A RenewAck in this session.
pub(crate) fn ack_seen(slot: &mut Option<Link>, stamp: u64, version: u32)
    requires { IfSome slot.old (λ l. stamp + l.len < 2 ^ 64) }
    ensures { turn slot.new [] [] ≡ ack_seen stamp version slot.old }
{
    let Some(link) = slot else {
        return;
    };
    if matches!(link.state, LinkState::Bound | LinkState::Parting) {
        // Counted from the stamp, this node's reading when it asked: a late answer gives no more time than an early
        // one, and takes none away.
        link.until = link.until.max(stamp + link.len);
        link.acked = link.acked.max(version);
    }
}
