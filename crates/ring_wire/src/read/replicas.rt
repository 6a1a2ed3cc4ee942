// Replicas: the bodies of each kind, read to the end of the bytes. A refusal may leave any body.

ghost use Rattle.wire_fields.specs.Readers.{Fills};
ghost use Rattle.frame_format.specs.Replicas.{promise_of, promised_of, sync_of, fetch_of, piece_of, adopted_of};
ghost use Rattle.frame_format.specs.Replicas.{activate_of, activated_of, append_of, appended_of, older_of, replicas_of};

use crate::not_frame::NotFrame;
use fabric_terms::Body;
use wire_fields::read::{
    config_at, end, epoch_at, last_at, node_at, numbered_at, payload_at, unit_at,
};

#[tactic(auto, unfolding(frame_format::specs::Replicas::promise_of))]
fn promise(bytes: &[u8], body: &mut Body) -> Result<(), NotFrame>
    ensures { Fills result body.new (promise_of bytes.now) }
{
    let (partition, epoch, rest) = unit_at(bytes)?;
    end(rest)?;
    *body = Body::Promise { partition, epoch };
    Ok(())
}

#[tactic(auto, unfolding(frame_format::specs::Replicas::promised_of))]
fn promised(bytes: &[u8], body: &mut Body) -> Result<(), NotFrame>
    ensures { Fills result body.new (promised_of bytes.now) }
{
    let (partition, epoch, rest) = unit_at(bytes)?;
    let (at, rest) = epoch_at(rest)?;
    let (last, rest) = last_at(rest)?;
    end(rest)?;
    *body = Body::Promised {
        partition,
        epoch,
        at,
        last,
    };
    Ok(())
}

#[tactic(auto, unfolding(frame_format::specs::Replicas::sync_of))]
fn sync(bytes: &[u8], body: &mut Body) -> Result<(), NotFrame>
    ensures { Fills result body.new (sync_of bytes.now) }
{
    let (partition, epoch, rest) = unit_at(bytes)?;
    let (origin, rest) = node_at(rest)?;
    let (last, rest) = last_at(rest)?;
    end(rest)?;
    *body = Body::Sync {
        partition,
        epoch,
        origin,
        last,
    };
    Ok(())
}

#[tactic(auto, unfolding(frame_format::specs::Replicas::fetch_of))]
fn fetch(bytes: &[u8], body: &mut Body) -> Result<(), NotFrame>
    ensures { Fills result body.new (fetch_of bytes.now) }
{
    let (partition, epoch, lsn, rest) = numbered_at(bytes)?;
    end(rest)?;
    *body = Body::Fetch {
        partition,
        epoch,
        lsn,
    };
    Ok(())
}

#[tactic(auto, unfolding(frame_format::specs::Replicas::piece_of))]
fn piece(bytes: &[u8], body: &mut Body) -> Result<(), NotFrame>
    ensures { Fills result body.new (piece_of bytes.now) }
{
    let (partition, epoch, lsn, rest) = numbered_at(bytes)?;
    let (entry_epoch, rest) = epoch_at(rest)?;
    let (text, rest) = payload_at(rest)?;
    end(rest)?;
    *body = Body::Piece {
        partition,
        epoch,
        lsn,
        entry_epoch,
        text,
    };
    Ok(())
}

#[tactic(auto, unfolding(frame_format::specs::Replicas::adopted_of))]
fn adopted(bytes: &[u8], body: &mut Body) -> Result<(), NotFrame>
    ensures { Fills result body.new (adopted_of bytes.now) }
{
    let (partition, epoch, last, rest) = numbered_at(bytes)?;
    end(rest)?;
    *body = Body::Adopted {
        partition,
        epoch,
        last,
    };
    Ok(())
}

#[tactic(auto, unfolding(frame_format::specs::Replicas::activate_of))]
fn activate(bytes: &[u8], body: &mut Body) -> Result<(), NotFrame>
    ensures { Fills result body.new (activate_of bytes.now) }
{
    let (config, rest) = config_at(bytes)?;
    end(rest)?;
    *body = Body::Activate { config };
    Ok(())
}

#[tactic(auto, unfolding(frame_format::specs::Replicas::activated_of))]
fn activated(bytes: &[u8], body: &mut Body) -> Result<(), NotFrame>
    ensures { Fills result body.new (activated_of bytes.now) }
{
    let (partition, epoch, rest) = unit_at(bytes)?;
    end(rest)?;
    *body = Body::Activated { partition, epoch };
    Ok(())
}

#[tactic(auto, unfolding(frame_format::specs::Replicas::append_of))]
fn append(bytes: &[u8], body: &mut Body) -> Result<(), NotFrame>
    ensures { Fills result body.new (append_of bytes.now) }
{
    let (partition, epoch, lsn, rest) = numbered_at(bytes)?;
    let (text, rest) = payload_at(rest)?;
    end(rest)?;
    *body = Body::Append {
        partition,
        epoch,
        lsn,
        text,
    };
    Ok(())
}

#[tactic(auto, unfolding(frame_format::specs::Replicas::appended_of))]
fn appended(bytes: &[u8], body: &mut Body) -> Result<(), NotFrame>
    ensures { Fills result body.new (appended_of bytes.now) }
{
    let (partition, epoch, last, rest) = numbered_at(bytes)?;
    end(rest)?;
    *body = Body::Appended {
        partition,
        epoch,
        last,
    };
    Ok(())
}

#[tactic(auto, unfolding(frame_format::specs::Replicas::older_of))]
fn older(bytes: &[u8], body: &mut Body) -> Result<(), NotFrame>
    ensures { Fills result body.new (older_of bytes.now) }
{
    let (partition, epoch, rest) = unit_at(bytes)?;
    let (kept, rest) = epoch_at(rest)?;
    end(rest)?;
    *body = Body::Older {
        partition,
        epoch,
        kept,
    };
    Ok(())
}

/// A body that is of a replica.
#[tactic(auto, unfolding(frame_format::specs::Replicas::replicas_of))]
pub fn read_replica(kind: u8, bytes: &[u8], body: &mut Body) -> Result<(), NotFrame>
    ensures { Fills result body.new (replicas_of kind bytes.now) }
{
    match kind {
        48 => promise(bytes, body),
        49 => promised(bytes, body),
        50 => sync(bytes, body),
        51 => fetch(bytes, body),
        52 => piece(bytes, body),
        53 => adopted(bytes, body),
        54 => activate(bytes, body),
        55 => activated(bytes, body),
        56 => append(bytes, body),
        57 => appended(bytes, body),
        58 => older(bytes, body),
        _ => Err(NotFrame),
    }
}
