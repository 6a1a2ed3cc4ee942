// Epochs and configurations of partitions, which nodes and arbitrators send each other: the bodies of each kind, read
// to the end of the bytes. A refusal may leave any body.

ghost use Rattle.wire_fields.specs.Readers.{Fills};
ghost use Rattle.frame_format.specs.Partitions.{prepare_of, prepared_of, no_prepare_of, vote_of, voted_of, no_vote_of};
ghost use Rattle.frame_format.specs.Partitions.{done_ask_of, done_kept_of, no_done_of, partitions_of};

use crate::not_frame::NotFrame;
use crate::read::replicas::read_replica;
use fabric_terms::Body;
use wire_fields::read::{config_at, done_at, end, epoch_at, unit_at};

#[tactic(auto, unfolding(frame_format::specs::Partitions::prepare_of))]
fn prepare(bytes: &[u8], body: &mut Body) -> Result<(), NotFrame>
    ensures { Fills result body.new (prepare_of bytes.now) }
{
    let (partition, epoch, rest) = unit_at(bytes)?;
    end(rest)?;
    *body = Body::Prepare { partition, epoch };
    Ok(())
}

#[tactic(auto, unfolding(frame_format::specs::Partitions::prepared_of))]
fn prepared(bytes: &[u8], body: &mut Body) -> Result<(), NotFrame>
    ensures { Fills result body.new (prepared_of bytes.now) }
{
    let (partition, epoch, rest) = unit_at(bytes)?;
    let (done, rest) = done_at(rest)?;
    end(rest)?;
    *body = Body::Prepared {
        partition,
        epoch,
        done,
    };
    Ok(())
}

#[tactic(auto, unfolding(frame_format::specs::Partitions::no_prepare_of))]
fn no_prepare(bytes: &[u8], body: &mut Body) -> Result<(), NotFrame>
    ensures { Fills result body.new (no_prepare_of bytes.now) }
{
    let (partition, epoch, rest) = unit_at(bytes)?;
    let (kept, rest) = epoch_at(rest)?;
    end(rest)?;
    *body = Body::NoPrepare {
        partition,
        epoch,
        kept,
    };
    Ok(())
}

#[tactic(auto, unfolding(frame_format::specs::Partitions::vote_of))]
fn vote(bytes: &[u8], body: &mut Body) -> Result<(), NotFrame>
    ensures { Fills result body.new (vote_of bytes.now) }
{
    let (config, rest) = config_at(bytes)?;
    end(rest)?;
    *body = Body::Vote { config };
    Ok(())
}

#[tactic(auto, unfolding(frame_format::specs::Partitions::voted_of))]
fn voted(bytes: &[u8], body: &mut Body) -> Result<(), NotFrame>
    ensures { Fills result body.new (voted_of bytes.now) }
{
    let (partition, epoch, rest) = unit_at(bytes)?;
    let (kept, rest) = config_at(rest)?;
    if kept.partition != partition || kept.epoch != epoch {
        return Err(NotFrame);
    }
    end(rest)?;
    *body = Body::Voted {
        partition,
        epoch,
        kept,
    };
    Ok(())
}

#[tactic(auto, unfolding(frame_format::specs::Partitions::no_vote_of))]
fn no_vote(bytes: &[u8], body: &mut Body) -> Result<(), NotFrame>
    ensures { Fills result body.new (no_vote_of bytes.now) }
{
    let (partition, epoch, rest) = unit_at(bytes)?;
    let (kept, rest) = epoch_at(rest)?;
    end(rest)?;
    *body = Body::NoVote {
        partition,
        epoch,
        kept,
    };
    Ok(())
}

#[tactic(auto, unfolding(frame_format::specs::Partitions::done_ask_of))]
fn done_ask(bytes: &[u8], body: &mut Body) -> Result<(), NotFrame>
    ensures { Fills result body.new (done_ask_of bytes.now) }
{
    let (config, rest) = config_at(bytes)?;
    end(rest)?;
    *body = Body::DoneAsk { config };
    Ok(())
}

#[tactic(auto, unfolding(frame_format::specs::Partitions::done_kept_of))]
fn done_kept(bytes: &[u8], body: &mut Body) -> Result<(), NotFrame>
    ensures { Fills result body.new (done_kept_of bytes.now) }
{
    let (partition, epoch, rest) = unit_at(bytes)?;
    end(rest)?;
    *body = Body::DoneKept { partition, epoch };
    Ok(())
}

#[tactic(auto, unfolding(frame_format::specs::Partitions::no_done_of))]
fn no_done(bytes: &[u8], body: &mut Body) -> Result<(), NotFrame>
    ensures { Fills result body.new (no_done_of bytes.now) }
{
    let (partition, epoch, rest) = unit_at(bytes)?;
    let (kept, rest) = epoch_at(rest)?;
    end(rest)?;
    *body = Body::NoDone {
        partition,
        epoch,
        kept,
    };
    Ok(())
}

/// A body that is no ruling either.
#[tactic(auto, unfolding(frame_format::specs::Partitions::partitions_of))]
pub fn read_partition(kind: u8, bytes: &[u8], body: &mut Body) -> Result<(), NotFrame>
    ensures { Fills result body.new (partitions_of kind bytes.now) }
{
    match kind {
        32 => prepare(bytes, body),
        33 => prepared(bytes, body),
        34 => no_prepare(bytes, body),
        35 => vote(bytes, body),
        36 => voted(bytes, body),
        37 => no_vote(bytes, body),
        38 => done_ask(bytes, body),
        39 => done_kept(bytes, body),
        40 => no_done(bytes, body),
        _ => read_replica(kind, bytes, body),
    }
}
