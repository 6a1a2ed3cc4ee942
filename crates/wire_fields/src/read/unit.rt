// Epochs, configurations and texts of partitions at the front of some bytes, and what follows them.

ghost use Rattle.std.specs.Prelude.{◌≡◌, ◌≤◌, ◌==◌, length, IfOk};
ghost use Rattle.std.specs.List.{list_any};
ghost use Rattle.ring_points.specs.Limits.{most_members};
ghost use Rattle.fabric_terms.specs.Fields.{rises_above, has_members};
ghost use Rattle.wire_fields.specs.Readers.{Gives, number_at, times, list_at, epoch_at, unit_at, config_at, done_at};
ghost use Rattle.wire_fields.specs.Readers.{numbered_at, payload_at};

use crate::not_field::NotField;
use crate::read::number::{flag_at, u8_at, u16_at, u32_at};
use fabric_terms::Payload;
use ring_points::{Config, Epoch, MAX_MEMBERS, MAX_NODE_NUMBER, MAX_WRITE, Members};

#[tactic(auto, unfolding(crate::specs::Readers::epoch_at))]
pub fn epoch_at(bytes: &[u8]) -> Result<(Epoch, &[u8]), NotField>
    ensures { Gives (λ x. (x.0, x.1.now)) result (epoch_at bytes.now) }
{
    let (data_loss, rest) = u32_at(bytes)?;
    let (configuration, rest) = u32_at(rest)?;
    Ok((
        Epoch {
            data_loss,
            configuration,
        },
        rest,
    ))
}

/// A partition and an epoch.
#[tactic(auto, unfolding(crate::specs::Readers::unit_at))]
pub fn unit_at(bytes: &[u8]) -> Result<(u16, Epoch, &[u8]), NotField>
    ensures { Gives (λ x. ((x.0, x.1), x.2.now)) result (unit_at bytes.now) }
{
    let (partition, rest) = u16_at(bytes)?;
    let (epoch, rest) = epoch_at(rest)?;
    Ok((partition, epoch, rest))
}

/// A partition, an epoch, and a number of 4 bytes, of an entry that there may not be.
pub fn numbered_at(bytes: &[u8]) -> Result<(u16, Epoch, u32, &[u8]), NotField>
    ensures { Gives (λ x. (((x.0, x.1), x.2), x.3.now)) result (numbered_at bytes.now) }
{
    let (partition, epoch, rest) = unit_at(bytes)?;
    let (number, rest) = u32_at(rest)?;
    Ok((partition, epoch, number, rest))
}

// As many nodes as `count` says.
fn members_of(count: u8, bytes: &[u8]) -> Result<(Members, &[u8]), NotField>
    requires { count ≤ MAX_MEMBERS }
    ensures { Gives (λ x. (x.0, x.1.now)) result (times count (number_at 2) bytes.now) }
{
    let mut members = Members::new();
    let mut rest = bytes;
    for _ in 0..count {
        let (node, after) = u16_at(rest)?;
        members.push(node);
        rest = after;
    }
    Ok((members, rest))
}

// A count of at most `MAX_MEMBERS`, and as many nodes.
#[tactic(auto, unfolding(crate::specs::Readers::list_at))]
fn members_at(bytes: &[u8]) -> Result<(Members, &[u8]), NotField>
    ensures { Gives (λ x. (x.0, x.1.now)) result (list_at most_members (number_at 2) bytes.now) }
{
    let (count, rest) = u8_at(bytes)?;
    if usize::from(count) <= MAX_MEMBERS {
        members_of(count, rest)
    } else {
        Err(NotField)
    }
}

// Whether these are numbers of nodes, each above the one before.
fn rises(members: &[u16]) -> bool
    ensures { result ≡ rises_above 0 members.now }
{
    let mut below = 0;
    for node in members {
        if *node <= below || MAX_NODE_NUMBER < *node {
            return false;
        }
        below = *node;
    }
    true
}

fn is_among(node: u16, members: &[u16]) -> bool
    ensures { result ≡ list_any (λ n. n == node) members.now }
{
    members.iter().any(|n| *n == node)
}

fn has_members(config: &Config) -> bool
    ensures { result ≡ has_members config.now }
{
    let members = config.members.as_slice();
    rises(members) && is_among(config.primary, members)
}

/// A configuration: its members are nodes, rising, and the primary is among them.
#[tactic(auto, unfolding(crate::specs::Readers::config_at))]
pub fn config_at(bytes: &[u8]) -> Result<(Config, &[u8]), NotField>
    ensures { Gives (λ x. (x.0, x.1.now)) result (config_at bytes.now) }
{
    let (partition, epoch, rest) = unit_at(bytes)?;
    let (primary, rest) = u16_at(rest)?;
    let (members, rest) = members_at(rest)?;
    let config = Config {
        partition,
        epoch,
        primary,
        members,
    };
    if has_members(&config) {
        Ok((config, rest))
    } else {
        Err(NotField)
    }
}

/// A flag that says whether there is a configuration, and the configuration.
#[tactic(auto, unfolding(crate::specs::Readers::done_at))]
pub fn done_at(bytes: &[u8]) -> Result<(Option<Config>, &[u8]), NotField>
    ensures { Gives (λ x. (x.0, x.1.now)) result (done_at bytes.now) }
{
    let (is_done, rest) = flag_at(bytes)?;
    if is_done {
        let (config, rest) = config_at(rest)?;
        Ok((Some(config), rest))
    } else {
        Ok((None, rest))
    }
}

/// A length of at most `MAX_WRITE`, and as many bytes, which are lent.
#[tactic(auto, unfolding(crate::specs::Readers::payload_at, crate::specs::Readers::bytes_at))]
pub fn text_at(bytes: &[u8]) -> Result<(&[u8], &[u8]), NotField>
    ensures text { Gives (λ x. (x.0.now, x.1.now)) result (payload_at bytes.now) }
    ensures short { IfOk result (λ x. length x.0.now ≤ MAX_WRITE) }
{
    let (length, rest) = u16_at(bytes)?;
    let length = usize::from(length);
    if length > MAX_WRITE {
        return Err(NotField);
    }
    if rest.len() < length {
        return Err(NotField);
    }
    Ok((&rest[..length], &rest[length..]))
}

/// A length of at most `MAX_WRITE`, and as many bytes, which are copied.
pub fn payload_at(bytes: &[u8]) -> Result<(Payload, &[u8]), NotField>
    ensures { Gives (λ x. (x.0, x.1.now)) result (payload_at bytes.now) }
{
    let (text, rest) = text_at(bytes)?;
    Ok((Payload::from_slice(text), rest))
}
