// How links begin: the fields of the bodies, written from a place on.

ghost use Rattle.std.specs.Prelude.{◌≤◌, ◌+◌, IsTrue};
ghost use Rattle.fabric_terms.specs.Messages.{is_sound_body};
ghost use Rattle.frame_format.specs.Frames.{kind_of, body_bytes};
ghost use Rattle.frame_format.specs.Sizes.{most_body_size};
ghost use Rattle.wire_fields.specs.Writers.{Puts};

use fabric_terms::Body;
use ring_points::FRAME_LIMIT;
use wire_fields::write::{put_session, put_u32, put_u64};

/// A body of a kind up to 3. Gives the place after it.
pub fn put_greeting(into: &mut [u8; FRAME_LIMIT], at: usize, body: &Body) -> usize
    requires room { at + most_body_size ≤ FRAME_LIMIT }
    requires sound { IsTrue (is_sound_body body.now) }
    requires high { kind_of body.now ≤ 3 }
    ensures { Puts (body_bytes body.now) into.old at into.new result }
{
    match body {
        Body::Hello { mine } => put_u32(into, at, *mine),
        Body::HelloFor { mine, length } => {
            let at = put_u32(into, at, *mine);
            put_u64(into, at, *length)
        }
        Body::Offer { mine, yours } | Body::Take { mine, yours } => put_session(
            into, at, *mine, *yours,
        ),
        Body::OfferFor {
            mine,
            yours,
            length,
        } => {
            let at = put_session(into, at, *mine, *yours);
            put_u64(into, at, *length)
        }
        _ => unreachable!(),
    }
}
