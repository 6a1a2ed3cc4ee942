// Searches: the bodies of each kind, read to the end of the bytes. A refusal may leave any body.

ghost use Rattle.wire_fields.specs.Readers.{Fills};
ghost use Rattle.frame_format.specs.Searches.{seek_of, found_of, searches_of};

use crate::not_frame::NotFrame;
use crate::read::rulings::read_ruling;
use fabric_terms::Body;
use ring_points::Point;
use wire_fields::read::{end, hops_at, u64_at, who_at};

#[tactic(auto, unfolding(frame_format::specs::Searches::seek_of, wire_fields::specs::Readers::point_at))]
fn seek(bytes: &[u8], body: &mut Body) -> Result<(), NotFrame>
    ensures { Fills result body.new (seek_of bytes.now) }
{
    let (origin, rest) = who_at(bytes)?;
    let (point, rest) = u64_at(rest)?;
    let (hops, rest) = hops_at(rest)?;
    end(rest)?;
    *body = Body::Seek {
        origin,
        key: Point(point),
        hops,
    };
    Ok(())
}

#[tactic(auto, unfolding(frame_format::specs::Searches::found_of, wire_fields::specs::Readers::point_at))]
fn found(bytes: &[u8], body: &mut Body) -> Result<(), NotFrame>
    ensures { Fills result body.new (found_of bytes.now) }
{
    let (point, rest) = u64_at(bytes)?;
    let (holder, rest) = who_at(rest)?;
    end(rest)?;
    *body = Body::Found {
        key: Point(point),
        holder,
    };
    Ok(())
}

/// A body that is of no session.
#[tactic(auto, unfolding(frame_format::specs::Searches::searches_of))]
pub fn read_search(kind: u8, bytes: &[u8], body: &mut Body) -> Result<(), NotFrame>
    ensures { Fills result body.new (searches_of kind bytes.now) }
{
    match kind {
        8 => seek(bytes, body),
        9 => found(bytes, body),
        _ => read_ruling(kind, bytes, body),
    }
}
