// Numbers at the front of some bytes, and what follows them.

ghost use Rattle.std.specs.Prelude.{◌≡◌, is_ok};
ghost use Rattle.wire_fields.specs.Readers.{Gives, number_at, byte_at, counted_at, last_at, stamp_at, lease_at};
ghost use Rattle.wire_fields.specs.Readers.{node_at, hops_at, round_at, flag_at, session_at, is_nil};

use crate::not_field::NotField;
use byteorder::{BigEndian, ByteOrder};
use ring_points::{
    MAX_HOPS, MAX_LEASE, MAX_LOG_ENTRIES, MAX_NODE_NUMBER, MAX_READING, MAX_ROUNDS, MIN_LEASE,
};

/// A byte.
#[tactic(auto, unfolding(crate::specs::Readers::byte_at))]
pub fn u8_at(bytes: &[u8]) -> Result<(u8, &[u8]), NotField>
    ensures { Gives (λ x. (x.0, x.1.now)) result (byte_at bytes.now) }
{
    match bytes {
        [byte, rest @ ..] => Ok((*byte, rest)),
        [] => Err(NotField),
    }
}

/// A number of 2 bytes, the highest first.
#[tactic(auto, unfolding(crate::specs::Readers::number_at))]
pub fn u16_at(bytes: &[u8]) -> Result<(u16, &[u8]), NotField>
    ensures { Gives (λ x. (x.0, x.1.now)) result (number_at 2 bytes.now) }
{
    if bytes.len() < 2 {
        return Err(NotField);
    }
    Ok((BigEndian::read_u16(bytes), &bytes[2..]))
}

/// A number of 4 bytes, the highest first.
#[tactic(auto, unfolding(crate::specs::Readers::number_at))]
pub fn u32_at(bytes: &[u8]) -> Result<(u32, &[u8]), NotField>
    ensures { Gives (λ x. (x.0, x.1.now)) result (number_at 4 bytes.now) }
{
    if bytes.len() < 4 {
        return Err(NotField);
    }
    Ok((BigEndian::read_u32(bytes), &bytes[4..]))
}

/// A number of 8 bytes, the highest first.
#[tactic(auto, unfolding(crate::specs::Readers::number_at))]
pub fn u64_at(bytes: &[u8]) -> Result<(u64, &[u8]), NotField>
    ensures { Gives (λ x. (x.0, x.1.now)) result (number_at 8 bytes.now) }
{
    if bytes.len() < 8 {
        return Err(NotField);
    }
    Ok((BigEndian::read_u64(bytes), &bytes[8..]))
}

/// The number of a session or of a flight.
#[tactic(auto, unfolding(crate::specs::Readers::counted_at))]
pub fn counted_at(bytes: &[u8]) -> Result<(u32, &[u8]), NotField>
    ensures { Gives (λ x. (x.0, x.1.now)) result (counted_at bytes.now) }
{
    let (n, rest) = u32_at(bytes)?;
    if 1 <= n { Ok((n, rest)) } else { Err(NotField) }
}

/// The number of the last entry of a log.
#[tactic(auto, unfolding(crate::specs::Readers::last_at))]
pub fn last_at(bytes: &[u8]) -> Result<(u32, &[u8]), NotField>
    ensures { Gives (λ x. (x.0, x.1.now)) result (last_at bytes.now) }
{
    let (n, rest) = u32_at(bytes)?;
    if n <= MAX_LOG_ENTRIES {
        Ok((n, rest))
    } else {
        Err(NotField)
    }
}

/// A reading of a clock.
#[tactic(auto, unfolding(crate::specs::Readers::stamp_at))]
pub fn stamp_at(bytes: &[u8]) -> Result<(u64, &[u8]), NotField>
    ensures { Gives (λ x. (x.0, x.1.now)) result (stamp_at bytes.now) }
{
    let (n, rest) = u64_at(bytes)?;
    if n <= MAX_READING {
        Ok((n, rest))
    } else {
        Err(NotField)
    }
}

/// The length of a lease.
#[tactic(auto, unfolding(crate::specs::Readers::lease_at))]
pub fn lease_at(bytes: &[u8]) -> Result<(u64, &[u8]), NotField>
    ensures { Gives (λ x. (x.0, x.1.now)) result (lease_at bytes.now) }
{
    let (n, rest) = u64_at(bytes)?;
    if MIN_LEASE <= n && n <= MAX_LEASE {
        Ok((n, rest))
    } else {
        Err(NotField)
    }
}

/// A node's number.
#[tactic(auto, unfolding(crate::specs::Readers::node_at))]
pub fn node_at(bytes: &[u8]) -> Result<(u16, &[u8]), NotField>
    ensures { Gives (λ x. (x.0, x.1.now)) result (node_at bytes.now) }
{
    let (n, rest) = u16_at(bytes)?;
    if 1 <= n && n <= MAX_NODE_NUMBER {
        Ok((n, rest))
    } else {
        Err(NotField)
    }
}

/// How many hops a Seek has made.
#[tactic(auto, unfolding(crate::specs::Readers::hops_at))]
pub fn hops_at(bytes: &[u8]) -> Result<(u8, &[u8]), NotField>
    ensures { Gives (λ x. (x.0, x.1.now)) result (hops_at bytes.now) }
{
    let (n, rest) = u8_at(bytes)?;
    if n <= MAX_HOPS {
        Ok((n, rest))
    } else {
        Err(NotField)
    }
}

/// The number of a round of heirs.
#[tactic(auto, unfolding(crate::specs::Readers::round_at))]
pub fn round_at(bytes: &[u8]) -> Result<(u8, &[u8]), NotField>
    ensures { Gives (λ x. (x.0, x.1.now)) result (round_at bytes.now) }
{
    let (n, rest) = u8_at(bytes)?;
    if 1 <= n && n <= MAX_ROUNDS {
        Ok((n, rest))
    } else {
        Err(NotField)
    }
}

/// A flag: 1 for true, 0 for false.
#[tactic(auto, unfolding(crate::specs::Readers::flag_at))]
pub fn flag_at(bytes: &[u8]) -> Result<(bool, &[u8]), NotField>
    ensures { Gives (λ x. (x.0, x.1.now)) result (flag_at bytes.now) }
{
    let (n, rest) = u8_at(bytes)?;
    if n <= 1 {
        Ok((n == 1, rest))
    } else {
        Err(NotField)
    }
}

/// The sender's and the receiver's number of a session.
#[tactic(auto, unfolding(crate::specs::Readers::session_at))]
pub fn session_at(bytes: &[u8]) -> Result<(u32, u32, &[u8]), NotField>
    ensures { Gives (λ x. ((x.0, x.1), x.2.now)) result (session_at bytes.now) }
{
    let (mine, rest) = counted_at(bytes)?;
    let (yours, rest) = counted_at(rest)?;
    Ok((mine, yours, rest))
}

/// Nothing is left.
pub fn end(rest: &[u8]) -> Result<(), NotField>
    ensures { is_ok result ≡ is_nil rest.now }
{
    match rest {
        [] => Ok(()),
        _ => Err(NotField),
    }
}
