// Actors and their instances at the front of some bytes, and what follows them.

ghost use Rattle.std.specs.Prelude.{◌≡◌};
ghost use Rattle.fabric_terms.specs.Fields.{is_node, is_arbiter};
ghost use Rattle.wire_fields.specs.Readers.{Gives, actor_at, who_at, sender_at, addressee_at, ruling_at, is_numbered};

use crate::not_field::NotField;
use crate::read::number::{u8_at, u16_at, u32_at};
use ring_points::{ARBITRATORS, MAX_ARBITRATORS, MAX_NODE_NUMBER, Ruling, Who};

/// The least actor that is an arbitrator.
const MIN_ARBITER_ACTOR: u16 = ARBITRATORS + 1;

/// The greatest.
const MAX_ARBITER_ACTOR: u16 = ARBITRATORS + MAX_ARBITRATORS as u16;

// Any actor and instance.
#[tactic(auto, unfolding(crate::specs::Readers::actor_at))]
fn actor_at(bytes: &[u8]) -> Result<(Who, &[u8]), NotField>
    ensures { Gives (λ x. (x.0, x.1.now)) result (actor_at bytes.now) }
{
    let (actor, rest) = u16_at(bytes)?;
    let (instance, rest) = u32_at(rest)?;
    Ok((Who { actor, instance }, rest))
}

fn is_node(actor: u16) -> bool
    ensures { result ≡ is_node actor }
{
    1 <= actor && actor <= MAX_NODE_NUMBER
}

fn is_numbered(who: Who) -> bool
    ensures { result ≡ is_numbered who }
{
    is_node(who.actor) && 1 <= who.instance
}

fn is_arbiter(who: Who) -> bool
    ensures { result ≡ is_arbiter who }
{
    MIN_ARBITER_ACTOR <= who.actor && who.actor <= MAX_ARBITER_ACTOR && who.instance == 0
}

/// An instance of a node.
#[tactic(auto, unfolding(crate::specs::Readers::who_at))]
pub fn who_at(bytes: &[u8]) -> Result<(Who, &[u8]), NotField>
    ensures { Gives (λ x. (x.0, x.1.now)) result (who_at bytes.now) }
{
    let (who, rest) = actor_at(bytes)?;
    if is_numbered(who) {
        Ok((who, rest))
    } else {
        Err(NotField)
    }
}

/// Who sends: an instance of a node, or an arbitrator.
#[tactic(auto, unfolding(crate::specs::Readers::sender_at))]
pub fn sender_at(bytes: &[u8]) -> Result<(Who, &[u8]), NotField>
    ensures { Gives (λ x. (x.0, x.1.now)) result (sender_at bytes.now) }
{
    let (who, rest) = actor_at(bytes)?;
    if is_numbered(who) || is_arbiter(who) {
        Ok((who, rest))
    } else {
        Err(NotField)
    }
}

/// To whom: a node, in one instance or in whichever runs, or an arbitrator.
#[tactic(auto, unfolding(crate::specs::Readers::addressee_at))]
pub fn addressee_at(bytes: &[u8]) -> Result<(Who, &[u8]), NotField>
    ensures { Gives (λ x. (x.0, x.1.now)) result (addressee_at bytes.now) }
{
    let (who, rest) = actor_at(bytes)?;
    if is_node(who.actor) || is_arbiter(who) {
        Ok((who, rest))
    } else {
        Err(NotField)
    }
}

/// An arbitrator's ruling: 1, 2 or 3.
#[tactic(auto, unfolding(crate::specs::Readers::ruling_at))]
pub fn ruling_at(bytes: &[u8]) -> Result<(Ruling, &[u8]), NotField>
    ensures { Gives (λ x. (x.0, x.1.now)) result (ruling_at bytes.now) }
{
    let (n, rest) = u8_at(bytes)?;
    match n {
        1 => Ok((Ruling::Granted, rest)),
        2 => Ok((Ruling::Taken, rest)),
        3 => Ok((Ruling::Refused, rest)),
        _ => Err(NotField),
    }
}
