ghost use Rattle.wire_fields.specs.Readers.{Gives};
ghost use Rattle.keep_log.specs.Items.{recorded};
ghost use Rattle.keep_log.specs.Readings.{later_round_at, boot_of, accused_by_of, prepared_by_of, voted_for_of};
ghost use Rattle.keep_log.specs.Readings.{done_for_of, promised_at_of, wrote_of, incoming_of, adopted_at_of};
ghost use Rattle.keep_log.specs.Readings.{claimed_by_of, fields_read, record_of};

use ring_points::{Config, Epoch, MAX_ROUNDS, Who};
use wire_fields::NotField;
use wire_fields::read::{
    config_at, counted_at, end, epoch_at, flag_at, last_at, numbered_at, text_at, u8_at, unit_at,
    who_at,
};

/// A record, the text of which lies in the bytes that it was read from.
#[derive(Drop)]
pub enum Item<'a> {
    Boot {
        instance: u32,
    },
    AccusedBy {
        victim: Who,
        first: Who,
    },
    PreparedBy {
        partition: u16,
        epoch: Epoch,
        preparer: Who,
    },
    VotedFor {
        config: Config,
    },
    DoneFor {
        config: Config,
    },
    PromisedAt {
        partition: u16,
        epoch: Epoch,
    },
    Wrote {
        partition: u16,
        epoch: Epoch,
        lsn: u32,
        text: &'a [u8],
    },
    Incoming {
        partition: u16,
        epoch: Epoch,
        lsn: u32,
        entry_epoch: Epoch,
        text: &'a [u8],
    },
    AdoptedAt {
        partition: u16,
        epoch: Epoch,
        last: u32,
        own: bool,
    },
    ClaimedBy {
        victim: Who,
        round: u8,
        claimer: Who,
    },
}

#[tactic(auto, unfolding(crate::specs::Readings::later_round_at))]
fn later_round_at(bytes: &[u8]) -> Result<(u8, &[u8]), NotField>
    ensures { Gives (λ x. (x.0, x.1.now)) result (later_round_at bytes.now) }
{
    let (round, rest) = u8_at(bytes)?;
    if 1 < round && round <= MAX_ROUNDS {
        Ok((round, rest))
    } else {
        Err(NotField)
    }
}

#[tactic(auto, unfolding(crate::specs::Readings::boot_of))]
fn boot(bytes: &[u8]) -> Result<Item<'_>, NotField>
    ensures { Gives recorded result (boot_of bytes.now) }
{
    let (instance, rest) = counted_at(bytes)?;
    end(rest)?;
    Ok(Item::Boot { instance })
}

#[tactic(auto, unfolding(crate::specs::Readings::accused_by_of))]
fn accused_by(bytes: &[u8]) -> Result<Item<'_>, NotField>
    ensures { Gives recorded result (accused_by_of bytes.now) }
{
    let (victim, rest) = who_at(bytes)?;
    let (first, rest) = who_at(rest)?;
    end(rest)?;
    Ok(Item::AccusedBy { victim, first })
}

#[tactic(auto, unfolding(crate::specs::Readings::prepared_by_of))]
fn prepared_by(bytes: &[u8]) -> Result<Item<'_>, NotField>
    ensures { Gives recorded result (prepared_by_of bytes.now) }
{
    let (partition, epoch, rest) = unit_at(bytes)?;
    let (preparer, rest) = who_at(rest)?;
    end(rest)?;
    Ok(Item::PreparedBy {
        partition,
        epoch,
        preparer,
    })
}

#[tactic(auto, unfolding(crate::specs::Readings::voted_for_of))]
fn voted_for(bytes: &[u8]) -> Result<Item<'_>, NotField>
    ensures { Gives recorded result (voted_for_of bytes.now) }
{
    let (config, rest) = config_at(bytes)?;
    end(rest)?;
    Ok(Item::VotedFor { config })
}

#[tactic(auto, unfolding(crate::specs::Readings::done_for_of))]
fn done_for(bytes: &[u8]) -> Result<Item<'_>, NotField>
    ensures { Gives recorded result (done_for_of bytes.now) }
{
    let (config, rest) = config_at(bytes)?;
    end(rest)?;
    Ok(Item::DoneFor { config })
}

#[tactic(auto, unfolding(crate::specs::Readings::promised_at_of))]
fn promised_at(bytes: &[u8]) -> Result<Item<'_>, NotField>
    ensures { Gives recorded result (promised_at_of bytes.now) }
{
    let (partition, epoch, rest) = unit_at(bytes)?;
    end(rest)?;
    Ok(Item::PromisedAt { partition, epoch })
}

#[tactic(auto, unfolding(crate::specs::Readings::wrote_of))]
fn wrote(bytes: &[u8]) -> Result<Item<'_>, NotField>
    ensures { Gives recorded result (wrote_of bytes.now) }
{
    let (partition, epoch, rest) = unit_at(bytes)?;
    let (lsn, rest) = last_at(rest)?;
    let (text, rest) = text_at(rest)?;
    end(rest)?;
    Ok(Item::Wrote {
        partition,
        epoch,
        lsn,
        text,
    })
}

#[tactic(auto, unfolding(crate::specs::Readings::incoming_of))]
fn incoming(bytes: &[u8]) -> Result<Item<'_>, NotField>
    ensures { Gives recorded result (incoming_of bytes.now) }
{
    let (partition, epoch, rest) = unit_at(bytes)?;
    let (lsn, rest) = last_at(rest)?;
    let (entry_epoch, rest) = epoch_at(rest)?;
    let (text, rest) = text_at(rest)?;
    end(rest)?;
    Ok(Item::Incoming {
        partition,
        epoch,
        lsn,
        entry_epoch,
        text,
    })
}

#[tactic(auto, unfolding(crate::specs::Readings::adopted_at_of))]
fn adopted_at(bytes: &[u8]) -> Result<Item<'_>, NotField>
    ensures { Gives recorded result (adopted_at_of bytes.now) }
{
    let (partition, epoch, last, rest) = numbered_at(bytes)?;
    let (own, rest) = flag_at(rest)?;
    end(rest)?;
    Ok(Item::AdoptedAt {
        partition,
        epoch,
        last,
        own,
    })
}

#[tactic(auto, unfolding(crate::specs::Readings::claimed_by_of))]
fn claimed_by(bytes: &[u8]) -> Result<Item<'_>, NotField>
    ensures { Gives recorded result (claimed_by_of bytes.now) }
{
    let (victim, rest) = who_at(bytes)?;
    let (round, rest) = later_round_at(rest)?;
    let (claimer, rest) = who_at(rest)?;
    end(rest)?;
    Ok(Item::ClaimedBy {
        victim,
        round,
        claimer,
    })
}

#[tactic(auto, unfolding(crate::specs::Readings::fields_read))]
fn fields(kind: u8, bytes: &[u8]) -> Result<Item<'_>, NotField>
    ensures { Gives recorded result (fields_read kind bytes.now) }
{
    match kind {
        1 => boot(bytes),
        2 => accused_by(bytes),
        3 => prepared_by(bytes),
        4 => voted_for(bytes),
        5 => done_for(bytes),
        6 => promised_at(bytes),
        7 => wrote(bytes),
        8 => incoming(bytes),
        9 => adopted_at(bytes),
        10 => claimed_by(bytes),
        _ => Err(NotField),
    }
}

/// The record that these bytes spell, if they spell one.
#[tactic(auto, unfolding(crate::specs::Readings::record_of))]
pub fn item_of(bytes: &[u8]) -> Result<Item<'_>, NotField>
    ensures { Gives recorded result (record_of bytes.now) }
{
    let (kind, rest) = u8_at(bytes)?;
    fields(kind, rest)
}
