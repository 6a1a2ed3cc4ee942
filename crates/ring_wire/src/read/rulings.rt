// Accusations, rulings and claims: the bodies of each kind, read to the end of the bytes. A refusal may leave any body.

ghost use Rattle.wire_fields.specs.Readers.{Fills};
ghost use Rattle.frame_format.specs.Rulings.{accuse_of, ruled_of, claim_of, kept_of, rulings_of};

use crate::not_frame::NotFrame;
use crate::read::partitions::read_partition;
use fabric_terms::Body;
use wire_fields::read::{end, round_at, ruling_at, who_at};

#[tactic(auto, unfolding(frame_format::specs::Rulings::accuse_of))]
fn accuse(bytes: &[u8], body: &mut Body) -> Result<(), NotFrame>
    ensures { Fills result body.new (accuse_of bytes.now) }
{
    let (victim, rest) = who_at(bytes)?;
    end(rest)?;
    *body = Body::Accuse { victim };
    Ok(())
}

#[tactic(auto, unfolding(frame_format::specs::Rulings::ruled_of))]
fn ruled(bytes: &[u8], body: &mut Body) -> Result<(), NotFrame>
    ensures { Fills result body.new (ruled_of bytes.now) }
{
    let (victim, rest) = who_at(bytes)?;
    let (ruling, rest) = ruling_at(rest)?;
    end(rest)?;
    *body = Body::Ruled { victim, ruling };
    Ok(())
}

#[tactic(auto, unfolding(frame_format::specs::Rulings::claim_of))]
fn claim(bytes: &[u8], body: &mut Body) -> Result<(), NotFrame>
    ensures { Fills result body.new (claim_of bytes.now) }
{
    let (victim, rest) = who_at(bytes)?;
    let (round, rest) = round_at(rest)?;
    end(rest)?;
    *body = Body::Claim { victim, round };
    Ok(())
}

#[tactic(auto, unfolding(frame_format::specs::Rulings::kept_of))]
fn kept(bytes: &[u8], body: &mut Body) -> Result<(), NotFrame>
    ensures { Fills result body.new (kept_of bytes.now) }
{
    let (victim, rest) = who_at(bytes)?;
    let (round, rest) = round_at(rest)?;
    let (claimer, rest) = who_at(rest)?;
    end(rest)?;
    *body = Body::Kept {
        victim,
        round,
        claimer,
    };
    Ok(())
}

/// A body that is no search either.
#[tactic(auto, unfolding(frame_format::specs::Rulings::rulings_of))]
pub fn read_ruling(kind: u8, bytes: &[u8], body: &mut Body) -> Result<(), NotFrame>
    ensures { Fills result body.new (rulings_of kind bytes.now) }
{
    match kind {
        16 => accuse(bytes, body),
        17 => ruled(bytes, body),
        18 => claim(bytes, body),
        19 => kept(bytes, body),
        _ => read_partition(kind, bytes, body),
    }
}
