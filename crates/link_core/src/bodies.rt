ghost use Rattle.std.specs.Prelude.{◌≡◌, ◌<◌, ◌++◌, [], Some, false, length};
ghost use Rattle.fabric_terms.specs.declared.message.Body.TheVariants as body;
ghost use Rattle.ring_rules.specs.Links.{hello_body, offer_body, transfer_body};
ghost use Rattle.link_core.specs.Flights.{answers};
ghost use Rattle.link_core.specs.Handshakes.{renew_body};
ghost use Rattle.link_core.specs.Links.{turn, turn_after, gone_said};

use crate::announce::Announced;
use fabric_terms::{Body, Outbox};
use ring_points::{Flight, OUTBOX_LIMIT, Who};
use ring_rules::Link;

/// The greeting of a link, by its frame version.
pub(crate) fn hello(link: &Link) -> Body
    ensures { result ≡ hello_body link.now }
{
    if link.wire == 2 {
        Body::HelloFor {
            mine: link.mine,
            length: link.len,
        }
    } else {
        Body::Hello { mine: link.mine }
    }
}

/// The offer of a link, by its frame version.
pub(crate) fn offer(link: &Link) -> Body
    ensures { result ≡ offer_body link.now }
{
    if link.wire == 2 {
        Body::OfferFor {
            mine: link.mine,
            yours: link.yours,
            length: link.len,
        }
    } else {
        Body::Offer {
            mine: link.mine,
            yours: link.yours,
        }
    }
}

/// The Renew of this reading.
pub(crate) fn renew(link: &Link, now: u64, announce: &Announced) -> Body
    ensures { result ≡ renew_body now announce.now link.now }
{
    Body::Renew {
        mine: link.mine,
        yours: link.yours,
        stamp: now,
        version: announce.version,
        got: link.got,
        want: announce.want,
        ranges: announce.ranges.copy(),
    }
}

/// The Transfer of a flight.
pub(crate) fn transfer(link: &Link, flight: &Flight) -> Body
    ensures { result ≡ transfer_body link.now flight.now }
{
    Body::Transfer {
        mine: link.mine,
        yours: link.yours,
        flight: flight.number,
        ranges: flight.part.copy(),
    }
}

/// What a slot that parts says: it has no record, it took so much, and it is still bound.
pub(crate) fn say_gone(link: &Link, out: &mut Outbox)
    requires { length out.old < OUTBOX_LIMIT }
    ensures { turn (Some link.now) out.new [] ≡ turn_after out.old (gone_said link.now) }
{
    out.send(
        link.peer,
        Body::Gone {
            mine: link.mine,
            yours: link.yours,
            got: link.got,
            bound: true,
        },
    );
}

/// The sender of a Gone gets its answer if it wants one.
pub(crate) fn answer(bound: bool, to: Who, gone: Body, out: &mut Outbox)
    requires { length out.old < OUTBOX_LIMIT }
    ensures { out.new ≡ out.old ++ answers bound to gone }
{
    if bound {
        out.send(to, gone);
    }
}

/// The answer in no session.
pub(crate) fn unknown(theirs: u32, own: u32) -> Body
    ensures { result ≡ body.Gone own theirs 0 false }
{
    Body::Gone {
        mine: own,
        yours: theirs,
        got: 0,
        bound: false,
    }
}
