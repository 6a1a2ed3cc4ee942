ghost use Rattle.std.specs.Prelude.{◌≡◌, ◌++◌, OnOk};
ghost use Rattle.text_fields.specs.Fields.{Gives, last, word_of};
ghost use Rattle.text_fields.specs.Inverses.{IsField, EndsNumber};
ghost use Rattle.text_fields.specs.Instances.{instance_at, who_at, who_text};
ghost use Rattle.text_fields.specs.Texts.{Keeps};
ghost use Rattle.fabric_terms.specs.Ranges.{IsWho};

use crate::actor::{arbiter_at, node_at};
use crate::bad_field::BadField;
use crate::number::{number_in, push_number};
use crate::word::{after_word, push_bytes};
use fabric_terms::OutOfMemory;
use ring_points::{ARBITRATORS, MAX_COUNTER, Who};

/// An instance of a node, as a node, a point and the number of its start, and what follows it.
pub fn instance_at(bytes: &[u8]) -> Result<(Who, &[u8]), BadField>
    ensures { Gives (λ x. (x.0, x.1.now)) result (instance_at bytes.now) }
{
    let (actor, rest) = node_at(bytes)?;
    let (instance, rest) = number_in(1, MAX_COUNTER, after_word(b".", rest)?)?;
    let instance = instance as u32;
    Ok((Who { actor, instance }, rest))
}

// An instance of a node, or an arbitrator, and what follows it.
fn who_at(bytes: &[u8]) -> Result<(Who, &[u8]), BadField>
    ensures { Gives (λ x. (x.0, x.1.now)) result (who_at bytes.now) }
{
    let Ok(rest) = after_word(b"a", bytes) else {
        return instance_at(bytes);
    };
    let (actor, rest) = arbiter_at(rest)?;
    Ok((Who { actor, instance: 0 }, rest))
}

/// An instance of a node, or an arbitrator, and the blank behind it, and what follows.
pub fn who_word(bytes: &[u8]) -> Result<(Who, &[u8]), BadField>
    ensures { Gives (λ x. (x.0, x.1.now)) result (word_of who_at bytes.now) }
{
    let (who, rest) = who_at(bytes)?;
    Ok((who, after_word(b" ", rest)?))
}

/// An instance of a node, or an arbitrator, that nothing follows.
pub fn last_who(bytes: &[u8]) -> Result<Who, BadField>
    ensures { Gives (λ x. x) result (last who_at bytes.now) }
{
    match who_at(bytes)? {
        (who, []) => Ok(who),
        _ => Err(BadField),
    }
}

/// Appends an instance of a node, or an arbitrator.
pub fn push_who(into: &mut Vec<u8>, who: Who) -> Result<(), OutOfMemory>
    ensures ok { OnOk result (into.new.items ≡ into.old.items ++ who_text who) }
    ensures kept { Keeps into.old.items into.new.items }
{
    if who.actor > ARBITRATORS {
        push_bytes(into, b"a")?;
        return push_number(into, u64::from(who.actor - ARBITRATORS));
    }
    push_number(into, u64::from(who.actor))?;
    push_bytes(into, b".")?;
    push_number(into, u64::from(who.instance))
}

/// An instance has one text, and nothing else is read as that instance.
pub fn instances_have_one_text()
    ensures { IsField who_at IsWho who_text EndsNumber }
{}
