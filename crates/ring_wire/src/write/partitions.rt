// Epochs and configurations of partitions: the fields of the bodies, written from a place on.

ghost use Rattle.std.specs.Prelude.{◌≤◌, ◌+◌, IsTrue};
ghost use Rattle.fabric_terms.specs.Messages.{is_sound_body};
ghost use Rattle.frame_format.specs.Frames.{kind_of, body_bytes};
ghost use Rattle.frame_format.specs.Sizes.{most_body_size};
ghost use Rattle.wire_fields.specs.Writers.{Puts};

use fabric_terms::Body;
use ring_points::FRAME_LIMIT;
use wire_fields::write::{put_config, put_done, put_epoch, put_unit};

/// A body of a kind from 32 to 40. Gives the place after it.
pub fn put_partition(into: &mut [u8; FRAME_LIMIT], at: usize, body: &Body) -> usize
    requires room { at + most_body_size ≤ FRAME_LIMIT }
    requires sound { IsTrue (is_sound_body body.now) }
    requires low { 32 ≤ kind_of body.now }
    requires high { kind_of body.now ≤ 47 }
    ensures { Puts (body_bytes body.now) into.old at into.new result }
{
    match body {
        Body::Prepare { partition, epoch } | Body::DoneKept { partition, epoch } => put_unit(
            into, at, *partition, *epoch,
        ),
        Body::Prepared {
            partition,
            epoch,
            done,
        } => {
            let at = put_unit(into, at, *partition, *epoch);
            put_done(into, at, done)
        }
        Body::NoPrepare {
            partition,
            epoch,
            kept,
        }
        | Body::NoVote {
            partition,
            epoch,
            kept,
        }
        | Body::NoDone {
            partition,
            epoch,
            kept,
        } => {
            let at = put_unit(into, at, *partition, *epoch);
            put_epoch(into, at, *kept)
        }
        Body::Vote { config } | Body::DoneAsk { config } => put_config(into, at, config),
        Body::Voted {
            partition,
            epoch,
            kept,
        } => {
            let at = put_unit(into, at, *partition, *epoch);
            put_config(into, at, kept)
        }
        _ => unreachable!(),
    }
}
