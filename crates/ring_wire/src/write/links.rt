// Links that stand: the fields of the bodies, written from a place on.

ghost use Rattle.std.specs.Prelude.{◌≤◌, ◌+◌, IsTrue};
ghost use Rattle.fabric_terms.specs.Messages.{is_sound_body};
ghost use Rattle.frame_format.specs.Frames.{kind_of, body_bytes};
ghost use Rattle.frame_format.specs.Sizes.{most_body_size};
ghost use Rattle.wire_fields.specs.Writers.{Puts};

use fabric_terms::Body;
use ring_points::FRAME_LIMIT;
use wire_fields::write::{put_flag, put_ranges, put_session, put_u32, put_u64};

/// A body of a kind from 4 to 7. Gives the place after it.
pub fn put_link(into: &mut [u8; FRAME_LIMIT], at: usize, body: &Body) -> usize
    requires room { at + most_body_size ≤ FRAME_LIMIT }
    requires sound { IsTrue (is_sound_body body.now) }
    requires low { 4 ≤ kind_of body.now }
    requires high { kind_of body.now ≤ 7 }
    ensures { Puts (body_bytes body.now) into.old at into.new result }
{
    match body {
        Body::Renew {
            mine,
            yours,
            stamp,
            version,
            got,
            want,
            ranges,
        } => {
            let at = put_session(into, at, *mine, *yours);
            let at = put_u64(into, at, *stamp);
            let at = put_u32(into, at, *version);
            let at = put_u32(into, at, *got);
            let at = put_flag(into, at, *want);
            put_ranges(into, at, ranges)
        }
        Body::RenewAck {
            mine,
            yours,
            stamp,
            version,
        } => {
            let at = put_session(into, at, *mine, *yours);
            let at = put_u64(into, at, *stamp);
            put_u32(into, at, *version)
        }
        Body::Transfer {
            mine,
            yours,
            flight,
            ranges,
        } => {
            let at = put_session(into, at, *mine, *yours);
            let at = put_u32(into, at, *flight);
            put_ranges(into, at, ranges)
        }
        Body::Gone {
            mine,
            yours,
            got,
            bound,
        } => {
            let at = put_session(into, at, *mine, *yours);
            let at = put_u32(into, at, *got);
            put_flag(into, at, *bound)
        }
        _ => unreachable!(),
    }
}
