// Promises, and the logs that replicas take over: the fields of the bodies, written from a place on.

ghost use Rattle.std.specs.Prelude.{◌≤◌, ◌+◌, IsTrue};
ghost use Rattle.fabric_terms.specs.Messages.{is_sound_body};
ghost use Rattle.frame_format.specs.Frames.{kind_of, body_bytes};
ghost use Rattle.frame_format.specs.Sizes.{most_body_size};
ghost use Rattle.wire_fields.specs.Writers.{Puts};

use fabric_terms::Body;
use ring_points::FRAME_LIMIT;
use wire_fields::write::{put_epoch, put_numbered, put_payload, put_u16, put_u32, put_unit};

/// A body of a kind from 48 to 53. Gives the place after it.
pub fn put_replica(into: &mut [u8; FRAME_LIMIT], at: usize, body: &Body) -> usize
    requires room { at + most_body_size ≤ FRAME_LIMIT }
    requires sound { IsTrue (is_sound_body body.now) }
    requires low { 48 ≤ kind_of body.now }
    requires high { kind_of body.now ≤ 53 }
    ensures { Puts (body_bytes body.now) into.old at into.new result }
{
    match body {
        Body::Promise { partition, epoch } => put_unit(into, at, *partition, *epoch),
        Body::Promised {
            partition,
            epoch,
            at: adopted,
            last,
        } => {
            let at = put_unit(into, at, *partition, *epoch);
            let at = put_epoch(into, at, *adopted);
            put_u32(into, at, *last)
        }
        Body::Sync {
            partition,
            epoch,
            origin,
            last,
        } => {
            let at = put_unit(into, at, *partition, *epoch);
            let at = put_u16(into, at, *origin);
            put_u32(into, at, *last)
        }
        Body::Fetch {
            partition,
            epoch,
            lsn,
        } => { put_numbered(into, at, *partition, *epoch, *lsn) }
        Body::Piece {
            partition,
            epoch,
            lsn,
            entry_epoch,
            text,
        } => {
            let at = put_numbered(into, at, *partition, *epoch, *lsn);
            let at = put_epoch(into, at, *entry_epoch);
            put_payload(into, at, text)
        }
        Body::Adopted {
            partition,
            epoch,
            last,
        } => { put_numbered(into, at, *partition, *epoch, *last) }
        _ => unreachable!(),
    }
}
