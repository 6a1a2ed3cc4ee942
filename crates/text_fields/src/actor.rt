ghost use Rattle.text_fields.specs.Fields.{Gives, last, word_of};
ghost use Rattle.text_fields.specs.Inverses.{IsField, EndsNumber};
ghost use Rattle.text_fields.specs.Actors.{node_at, arbiter_at, actor_at, actor_text};
ghost use Rattle.fabric_terms.specs.Ranges.{IsActor};

use crate::bad_field::BadField;
use crate::number::{last_number, number_in, number_word};
use crate::word::after_word;
use ring_points::{ARBITRATORS, MAX_ARBITRATORS, MAX_NODE_NUMBER};

/// A node, and what follows it.
pub fn node_at(bytes: &[u8]) -> Result<(u16, &[u8]), BadField>
    ensures { Gives (λ x. (x.0, x.1.now)) result (node_at bytes.now) }
{
    let (node, rest) = number_in(1, u64::from(MAX_NODE_NUMBER), bytes)?;
    Ok((node as u16, rest))
}

/// The same, and the blank behind it.
pub fn node_word(bytes: &[u8]) -> Result<(u16, &[u8]), BadField>
    ensures { Gives (λ x. (x.0, x.1.now)) result (word_of node_at bytes.now) }
{
    let (node, rest) = number_word(1, u64::from(MAX_NODE_NUMBER), bytes)?;
    Ok((node as u16, rest))
}

/// A node that nothing follows.
pub fn last_node(bytes: &[u8]) -> Result<u16, BadField>
    ensures { Gives (λ x. x) result (last node_at bytes.now) }
{
    Ok(last_number(1, u64::from(MAX_NODE_NUMBER), bytes)? as u16)
}

/// The number of an arbitrator, without its letter, as an actor, and what follows it.
pub fn arbiter_at(bytes: &[u8]) -> Result<(u16, &[u8]), BadField>
    ensures { Gives (λ x. (x.0, x.1.now)) result (arbiter_at bytes.now) }
{
    let (arbiter, rest) = number_in(1, MAX_ARBITRATORS as u64, bytes)?;
    Ok((ARBITRATORS + arbiter as u16, rest))
}

/// The same, with nothing behind it.
pub fn last_arbiter(bytes: &[u8]) -> Result<u16, BadField>
    ensures { Gives (λ x. x) result (last arbiter_at bytes.now) }
{
    match arbiter_at(bytes)? {
        (actor, []) => Ok(actor),
        _ => Err(BadField),
    }
}

// An actor, and what follows it.
fn actor_at(bytes: &[u8]) -> Result<(u16, &[u8]), BadField>
    ensures { Gives (λ x. (x.0, x.1.now)) result (actor_at bytes.now) }
{
    match after_word(b"a", bytes) {
        Ok(rest) => arbiter_at(rest),
        Err(_) => node_at(bytes),
    }
}

/// An actor and the blank behind it, and what follows.
pub fn actor_word(bytes: &[u8]) -> Result<(u16, &[u8]), BadField>
    ensures { Gives (λ x. (x.0, x.1.now)) result (word_of actor_at bytes.now) }
{
    let (actor, rest) = actor_at(bytes)?;
    Ok((actor, after_word(b" ", rest)?))
}

/// An actor that nothing follows.
pub fn last_actor(bytes: &[u8]) -> Result<u16, BadField>
    ensures { Gives (λ x. x) result (last actor_at bytes.now) }
{
    match actor_at(bytes)? {
        (actor, []) => Ok(actor),
        _ => Err(BadField),
    }
}

/// An actor has one text, and nothing else is read as that actor.
pub fn actors_have_one_text()
    ensures { IsField actor_at IsActor actor_text EndsNumber }
{}
