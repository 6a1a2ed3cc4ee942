// Records: which bytes are one, and its name. What is read of them but the name is not kept.
ghost use Rattle.std.specs.Prelude.{◌≡◌, ◌++◌, OnOk};
ghost use Rattle.fabric_c.specs.Lines.{named, record_words};
ghost use Rattle.fabric_c.specs.Words.{WritesRecord};
ghost use Rattle.keep_log.specs.Readings.{later_round_at, boot_of, accused_by_of, prepared_by_of, voted_for_of};
ghost use Rattle.keep_log.specs.Readings.{done_for_of, promised_at_of, wrote_of, incoming_of, adopted_at_of};
ghost use Rattle.keep_log.specs.Readings.{claimed_by_of, fields_read, record_of};
ghost use Rattle.wire_fields.specs.Readers.{Gives};

use crate::code::{NOT_READ, OK, OUT_OF_MEMORY};
use crate::digits::push_digits;
use crate::reply::Reply;
use fabric_terms::OutOfMemory;
use ring_points::MAX_ROUNDS;
use std::alloc::Global;
use text_fields::push_bytes;
use wire_fields::NotField;
use wire_fields::read::{
    config_at, counted_at, end, epoch_at, flag_at, last_at, numbered_at, text_at, u8_at, unit_at,
    who_at,
};

type Name = &'static [u8];

// A round after the first, and what follows it.
#[tactic(auto, unfolding(keep_log::specs::Readings::later_round_at))]
fn later_round_at(bytes: &[u8]) -> Result<(u8, &[u8]), NotField>
    ensures { Gives (λ x. (x.0, x.1.now)) result (later_round_at bytes.now) }
{
    let (round, rest) = u8_at(bytes)?;
    if 1 < round && round <= MAX_ROUNDS {
        Ok((round, rest))
    } else {
        Err(NotField)
    }
}

#[tactic(auto, unfolding(keep_log::specs::Readings::boot_of))]
fn boot(bytes: &[u8]) -> Result<Name, NotField>
    ensures { Gives (λ name. name.now) result (named (boot_of bytes.now)) }
{
    let (_, rest) = counted_at(bytes)?;
    end(rest)?;
    Ok(b"Boot")
}

#[tactic(auto, unfolding(keep_log::specs::Readings::accused_by_of))]
fn accused_by(bytes: &[u8]) -> Result<Name, NotField>
    ensures { Gives (λ name. name.now) result (named (accused_by_of bytes.now)) }
{
    let (_, rest) = who_at(bytes)?;
    let (_, rest) = who_at(rest)?;
    end(rest)?;
    Ok(b"AccusedBy")
}

#[tactic(auto, unfolding(keep_log::specs::Readings::prepared_by_of))]
fn prepared_by(bytes: &[u8]) -> Result<Name, NotField>
    ensures { Gives (λ name. name.now) result (named (prepared_by_of bytes.now)) }
{
    let (_, _, rest) = unit_at(bytes)?;
    let (_, rest) = who_at(rest)?;
    end(rest)?;
    Ok(b"PreparedBy")
}

#[tactic(auto, unfolding(keep_log::specs::Readings::voted_for_of))]
fn voted_for(bytes: &[u8]) -> Result<Name, NotField>
    ensures { Gives (λ name. name.now) result (named (voted_for_of bytes.now)) }
{
    let (_, rest) = config_at(bytes)?;
    end(rest)?;
    Ok(b"VotedFor")
}

#[tactic(auto, unfolding(keep_log::specs::Readings::done_for_of))]
fn done_for(bytes: &[u8]) -> Result<Name, NotField>
    ensures { Gives (λ name. name.now) result (named (done_for_of bytes.now)) }
{
    let (_, rest) = config_at(bytes)?;
    end(rest)?;
    Ok(b"DoneFor")
}

#[tactic(auto, unfolding(keep_log::specs::Readings::promised_at_of))]
fn promised_at(bytes: &[u8]) -> Result<Name, NotField>
    ensures { Gives (λ name. name.now) result (named (promised_at_of bytes.now)) }
{
    let (_, _, rest) = unit_at(bytes)?;
    end(rest)?;
    Ok(b"PromisedAt")
}

#[tactic(auto, unfolding(keep_log::specs::Readings::wrote_of))]
fn wrote(bytes: &[u8]) -> Result<Name, NotField>
    ensures { Gives (λ name. name.now) result (named (wrote_of bytes.now)) }
{
    let (_, _, rest) = unit_at(bytes)?;
    let (_, rest) = last_at(rest)?;
    let (_, rest) = text_at(rest)?;
    end(rest)?;
    Ok(b"Wrote")
}

#[tactic(auto, unfolding(keep_log::specs::Readings::incoming_of))]
fn incoming(bytes: &[u8]) -> Result<Name, NotField>
    ensures { Gives (λ name. name.now) result (named (incoming_of bytes.now)) }
{
    let (_, _, rest) = unit_at(bytes)?;
    let (_, rest) = last_at(rest)?;
    let (_, rest) = epoch_at(rest)?;
    let (_, rest) = text_at(rest)?;
    end(rest)?;
    Ok(b"Incoming")
}

#[tactic(auto, unfolding(keep_log::specs::Readings::adopted_at_of))]
fn adopted_at(bytes: &[u8]) -> Result<Name, NotField>
    ensures { Gives (λ name. name.now) result (named (adopted_at_of bytes.now)) }
{
    let (_, _, _, rest) = numbered_at(bytes)?;
    let (_, rest) = flag_at(rest)?;
    end(rest)?;
    Ok(b"AdoptedAt")
}

#[tactic(auto, unfolding(keep_log::specs::Readings::claimed_by_of))]
fn claimed_by(bytes: &[u8]) -> Result<Name, NotField>
    ensures { Gives (λ name. name.now) result (named (claimed_by_of bytes.now)) }
{
    let (_, rest) = who_at(bytes)?;
    let (_, rest) = later_round_at(rest)?;
    let (_, rest) = who_at(rest)?;
    end(rest)?;
    Ok(b"ClaimedBy")
}

// The name of the record of this kind, the fields of which are all that is left.
#[tactic(auto, unfolding(keep_log::specs::Readings::fields_read))]
fn fields(kind: u8, bytes: &[u8]) -> Result<Name, NotField>
    ensures { Gives (λ name. name.now) result (named (fields_read kind bytes.now)) }
{
    match kind {
        1 => boot(bytes),
        2 => accused_by(bytes),
        3 => prepared_by(bytes),
        4 => voted_for(bytes),
        5 => done_for(bytes),
        6 => promised_at(bytes),
        7 => wrote(bytes),
        8 => incoming(bytes),
        9 => adopted_at(bytes),
        10 => claimed_by(bytes),
        _ => Err(NotField),
    }
}

#[tactic(auto, unfolding(keep_log::specs::Readings::record_of))]
fn name_of(bytes: &[u8]) -> Result<Name, NotField>
    ensures { Gives (λ name. name.now) result (named (record_of bytes.now)) }
{
    let (kind, rest) = u8_at(bytes)?;
    fields(kind, rest)
}

fn push_words(
    alloc: Global,
    text: &mut Vec<u8>,
    bytes: &[u8],
    name: &[u8],
) -> Result<(), OutOfMemory>
    ensures { OnOk result (text.new.items ≡ text.old.items ++ record_words bytes.now name.now) }
{
    push_digits(alloc, text, bytes)?;
    push_bytes(text, b" ")?;
    push_bytes(text, name)
}

/// The line of a record.
pub fn record_reply(alloc: Global, bytes: &[u8]) -> Reply
    ensures { WritesRecord bytes.now result.text.items result.code }
{
    let name = match name_of(bytes) {
        Ok(name) => name,
        Err(_) => return Reply::bare(alloc, NOT_READ),
    };
    let mut text = Vec::new(alloc);
    match push_words(alloc, &mut text, bytes, name) {
        Ok(()) => Reply { text, code: OK },
        Err(_) => Reply::bare(alloc, OUT_OF_MEMORY),
    }
}
