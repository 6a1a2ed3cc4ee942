ghost use Rattle.std.specs.Prelude.{◌≡◌, ◌<◌, OnErr, length};
ghost use Rattle.link_core.specs.Calls.{slot_parted, turn_call_after, turn_outcome};

use crate::bodies::say_gone;
use crate::refusal::LinkRefusal;
use fabric_terms::Outbox;
use ring_points::{OUTBOX_LIMIT, RangeSet};
use ring_rules::{Link, LinkState};

/// The slot gives up its record and says so to the peer, unless a flight of it stands.
pub(crate) fn part(slot: &mut Option<Link>, out: &mut Outbox) -> Result<(), LinkRefusal>
    requires { length out.old < OUTBOX_LIMIT }
    ensures outcome { turn_outcome result slot.new out.new ≡ turn_call_after out.old (slot_parted slot.old) }
    ensures err { OnErr result (slot.new ≡ slot.old) }
    ensures silent { OnErr result (out.new ≡ out.old) }
{
    let Some(link) = slot else {
        return Ok(());
    };
    if link.flight.is_some() {
        return Err(LinkRefusal::Busy);
    }
    link.state = LinkState::Parting;
    link.held = RangeSet::new();
    say_gone(link, out);
    Ok(())
}
