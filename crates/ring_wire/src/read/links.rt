// The sessions of links: the bodies of each kind, read to the end of the bytes. A refusal may leave any body.

ghost use Rattle.wire_fields.specs.Readers.{Fills};
ghost use Rattle.frame_format.specs.Links.{hello_of, hello_for_of, offer_of, offer_for_of, take_of, renew_of};
ghost use Rattle.frame_format.specs.Links.{renew_ack_of, transfer_of, gone_of, links_of, leases_of};

use crate::not_frame::NotFrame;
use crate::read::searches::read_search;
use fabric_terms::Body;
use ring_points::{Interval, MAX_INTERVALS, RangeSet};
use wire_fields::read::{
    counted_at, end, flag_at, intervals_at, lease_at, session_at, stamp_at, u32_at,
};

#[tactic(auto, unfolding(frame_format::specs::Links::hello_of))]
fn hello(bytes: &[u8], body: &mut Body) -> Result<(), NotFrame>
    ensures { Fills result body.new (hello_of bytes.now) }
{
    let (mine, rest) = counted_at(bytes)?;
    end(rest)?;
    *body = Body::Hello { mine };
    Ok(())
}

#[tactic(auto, unfolding(frame_format::specs::Links::hello_for_of))]
fn hello_for(bytes: &[u8], body: &mut Body) -> Result<(), NotFrame>
    ensures { Fills result body.new (hello_for_of bytes.now) }
{
    let (mine, rest) = counted_at(bytes)?;
    let (length, rest) = lease_at(rest)?;
    end(rest)?;
    *body = Body::HelloFor { mine, length };
    Ok(())
}

#[tactic(auto, unfolding(frame_format::specs::Links::offer_of))]
fn offer(bytes: &[u8], body: &mut Body) -> Result<(), NotFrame>
    ensures { Fills result body.new (offer_of bytes.now) }
{
    let (mine, yours, rest) = session_at(bytes)?;
    end(rest)?;
    *body = Body::Offer { mine, yours };
    Ok(())
}

#[tactic(auto, unfolding(frame_format::specs::Links::offer_for_of))]
fn offer_for(bytes: &[u8], body: &mut Body) -> Result<(), NotFrame>
    ensures { Fills result body.new (offer_for_of bytes.now) }
{
    let (mine, yours, rest) = session_at(bytes)?;
    let (length, rest) = lease_at(rest)?;
    end(rest)?;
    *body = Body::OfferFor {
        mine,
        yours,
        length,
    };
    Ok(())
}

#[tactic(auto, unfolding(frame_format::specs::Links::take_of))]
fn take(bytes: &[u8], body: &mut Body) -> Result<(), NotFrame>
    ensures { Fills result body.new (take_of bytes.now) }
{
    let (mine, yours, rest) = session_at(bytes)?;
    end(rest)?;
    *body = Body::Take { mine, yours };
    Ok(())
}

#[tactic(auto, unfolding(frame_format::specs::Links::renew_of))]
fn renew(bytes: &[u8], body: &mut Body) -> Result<(), NotFrame>
    ensures { Fills result body.new (renew_of bytes.now) }
{
    let (mine, yours, rest) = session_at(bytes)?;
    let (stamp, rest) = stamp_at(rest)?;
    let (version, rest) = u32_at(rest)?;
    let (got, rest) = u32_at(rest)?;
    let (want, rest) = flag_at(rest)?;
    let mut places = [Interval { lo: 0, hi: 0 }; MAX_INTERVALS];
    let (count, rest) = intervals_at(&mut places, rest)?;
    let Some(ranges) = RangeSet::from_pairs(&places[..count]) else {
        return Err(NotFrame);
    };
    end(rest)?;
    *body = Body::Renew {
        mine,
        yours,
        stamp,
        version,
        got,
        want,
        ranges,
    };
    Ok(())
}

#[tactic(auto, unfolding(frame_format::specs::Links::renew_ack_of))]
fn renew_ack(bytes: &[u8], body: &mut Body) -> Result<(), NotFrame>
    ensures { Fills result body.new (renew_ack_of bytes.now) }
{
    let (mine, yours, rest) = session_at(bytes)?;
    let (stamp, rest) = stamp_at(rest)?;
    let (version, rest) = u32_at(rest)?;
    end(rest)?;
    *body = Body::RenewAck {
        mine,
        yours,
        stamp,
        version,
    };
    Ok(())
}

#[tactic(auto, unfolding(frame_format::specs::Links::transfer_of))]
fn transfer(bytes: &[u8], body: &mut Body) -> Result<(), NotFrame>
    ensures { Fills result body.new (transfer_of bytes.now) }
{
    let (mine, yours, rest) = session_at(bytes)?;
    let (flight, rest) = counted_at(rest)?;
    let mut places = [Interval { lo: 0, hi: 0 }; MAX_INTERVALS];
    let (count, rest) = intervals_at(&mut places, rest)?;
    let Some(ranges) = RangeSet::from_pairs(&places[..count]) else {
        return Err(NotFrame);
    };
    if count == 0 {
        return Err(NotFrame);
    }
    end(rest)?;
    *body = Body::Transfer {
        mine,
        yours,
        flight,
        ranges,
    };
    Ok(())
}

#[tactic(auto, unfolding(frame_format::specs::Links::gone_of))]
fn gone(bytes: &[u8], body: &mut Body) -> Result<(), NotFrame>
    ensures { Fills result body.new (gone_of bytes.now) }
{
    let (mine, yours, rest) = session_at(bytes)?;
    let (got, rest) = u32_at(rest)?;
    let (bound, rest) = flag_at(rest)?;
    end(rest)?;
    *body = Body::Gone {
        mine,
        yours,
        got,
        bound,
    };
    Ok(())
}

/// The body of a frame of version 1.
#[tactic(auto, unfolding(frame_format::specs::Links::links_of))]
pub fn read_link(kind: u8, bytes: &[u8], body: &mut Body) -> Result<(), NotFrame>
    ensures { Fills result body.new (links_of kind bytes.now) }
{
    match kind {
        1 => hello(bytes, body),
        2 => offer(bytes, body),
        3 => take(bytes, body),
        4 => renew(bytes, body),
        5 => renew_ack(bytes, body),
        6 => transfer(bytes, body),
        7 => gone(bytes, body),
        _ => read_search(kind, bytes, body),
    }
}

/// The body of a frame of version 2, which has a lease of its own.
#[tactic(auto, unfolding(frame_format::specs::Links::leases_of))]
pub fn read_lease(kind: u8, bytes: &[u8], body: &mut Body) -> Result<(), NotFrame>
    ensures { Fills result body.new (leases_of kind bytes.now) }
{
    match kind {
        1 => hello_for(bytes, body),
        2 => offer_for(bytes, body),
        _ => Err(NotFrame),
    }
}
