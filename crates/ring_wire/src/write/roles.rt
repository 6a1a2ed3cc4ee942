// Roles, and the entries of a primary: the fields of the bodies, written from a place on.

ghost use Rattle.std.specs.Prelude.{◌≤◌, ◌+◌, IsTrue};
ghost use Rattle.fabric_terms.specs.Messages.{is_sound_body};
ghost use Rattle.frame_format.specs.Frames.{kind_of, body_bytes};
ghost use Rattle.frame_format.specs.Sizes.{most_body_size};
ghost use Rattle.wire_fields.specs.Writers.{Puts};

use fabric_terms::Body;
use ring_points::FRAME_LIMIT;
use wire_fields::write::{put_config, put_epoch, put_numbered, put_payload, put_unit};

/// A body of a kind from 54 on. Gives the place after it.
pub fn put_role(into: &mut [u8; FRAME_LIMIT], at: usize, body: &Body) -> usize
    requires room { at + most_body_size ≤ FRAME_LIMIT }
    requires sound { IsTrue (is_sound_body body.now) }
    requires low { 54 ≤ kind_of body.now }
    ensures { Puts (body_bytes body.now) into.old at into.new result }
{
    match body {
        Body::Activate { config } => put_config(into, at, config),
        Body::Activated { partition, epoch } => put_unit(into, at, *partition, *epoch),
        Body::Append {
            partition,
            epoch,
            lsn,
            text,
        } => {
            let at = put_numbered(into, at, *partition, *epoch, *lsn);
            put_payload(into, at, text)
        }
        Body::Appended {
            partition,
            epoch,
            last,
        } => { put_numbered(into, at, *partition, *epoch, *last) }
        Body::Older {
            partition,
            epoch,
            kept,
        } => {
            let at = put_unit(into, at, *partition, *epoch);
            put_epoch(into, at, *kept)
        }
        _ => unreachable!(),
    }
}
