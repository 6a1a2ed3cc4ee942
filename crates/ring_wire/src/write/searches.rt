// Searches: the fields of the bodies, written from a place on.

ghost use Rattle.std.specs.Prelude.{◌≤◌, ◌+◌, IsTrue};
ghost use Rattle.fabric_terms.specs.Messages.{is_sound_body};
ghost use Rattle.frame_format.specs.Frames.{kind_of, body_bytes};
ghost use Rattle.frame_format.specs.Sizes.{most_body_size};
ghost use Rattle.wire_fields.specs.Writers.{Puts};

use fabric_terms::Body;
use ring_points::FRAME_LIMIT;
use wire_fields::write::{put_u8, put_u64, put_who};

/// A body of a kind from 8 to 9. Gives the place after it.
pub fn put_search(into: &mut [u8; FRAME_LIMIT], at: usize, body: &Body) -> usize
    requires room { at + most_body_size ≤ FRAME_LIMIT }
    requires sound { IsTrue (is_sound_body body.now) }
    requires low { 8 ≤ kind_of body.now }
    requires high { kind_of body.now ≤ 15 }
    ensures { Puts (body_bytes body.now) into.old at into.new result }
{
    match body {
        Body::Seek { origin, key, hops } => {
            let at = put_who(into, at, *origin);
            let at = put_u64(into, at, key.0);
            put_u8(into, at, *hops)
        }
        Body::Found { key, holder } => {
            let at = put_u64(into, at, key.0);
            put_who(into, at, *holder)
        }
        _ => unreachable!(),
    }
}
