// Accusations, rulings and claims: the fields of the bodies, written from a place on.

ghost use Rattle.std.specs.Prelude.{◌≤◌, ◌+◌, IsTrue};
ghost use Rattle.fabric_terms.specs.Messages.{is_sound_body};
ghost use Rattle.frame_format.specs.Frames.{kind_of, body_bytes};
ghost use Rattle.frame_format.specs.Sizes.{most_body_size};
ghost use Rattle.wire_fields.specs.Writers.{Puts};

use fabric_terms::Body;
use ring_points::FRAME_LIMIT;
use wire_fields::write::{put_claim, put_ruling, put_u8, put_who};

/// A body of a kind from 16 to 19. Gives the place after it.
pub fn put_ruling_body(into: &mut [u8; FRAME_LIMIT], at: usize, body: &Body) -> usize
    requires room { at + most_body_size ≤ FRAME_LIMIT }
    requires sound { IsTrue (is_sound_body body.now) }
    requires low { 16 ≤ kind_of body.now }
    requires high { kind_of body.now ≤ 31 }
    ensures { Puts (body_bytes body.now) into.old at into.new result }
{
    match body {
        Body::Accuse { victim } => put_who(into, at, *victim),
        Body::Ruled { victim, ruling } => {
            let at = put_who(into, at, *victim);
            put_ruling(into, at, *ruling)
        }
        Body::Claim { victim, round } => {
            let at = put_who(into, at, *victim);
            put_u8(into, at, *round)
        }
        Body::Kept {
            victim,
            round,
            claimer,
        } => { put_claim(into, at, *victim, *round, *claimer) }
        _ => unreachable!(),
    }
}
