// Actors, ranges, configurations and texts, written from a place on. Each call gives the place after what it wrote.

ghost use Rattle.std.specs.Prelude.{◌≡◌, ◌≤◌, ◌+◌, ◌*◌, length, IsTrue};
ghost use Rattle.std.specs.List.{flat_map};
ghost use Rattle.fabric_terms.specs.Fields.{is_done};
ghost use Rattle.wire_fields.specs.Texts.{number_bytes, who_bytes, ruling_bytes, epoch_bytes, unit_bytes};
ghost use Rattle.wire_fields.specs.Texts.{interval_bytes, ranges_bytes, list_bytes, config_bytes, done_bytes};
ghost use Rattle.wire_fields.specs.Texts.{payload_bytes, numbered_bytes, claim_bytes};
ghost use Rattle.wire_fields.specs.Sizes.{interval_size, most_ranges_size, most_members_size};
ghost use Rattle.wire_fields.specs.Sizes.{most_config_size, most_done_size, most_payload_size};
ghost use Rattle.wire_fields.specs.Writers.{Puts};

use crate::write::number::{put_flag, put_u8, put_u16, put_u32, put_u64};
use fabric_terms::Payload;
use ring_points::{Config, Epoch, Interval, MAX_MEMBERS, MAX_WRITE, RangeSet, Ruling, Who};

/// An actor and its instance.
#[tactic(auto, unfolding(crate::specs::Texts::who_bytes))]
pub fn put_who(into: &mut [u8], at: usize, who: Who) -> usize
    requires { at + 6 ≤ length into.old }
    ensures wrote { Puts (who_bytes who) into.old at into.new result }
    ensures end { result ≡ at + 6 }
{
    let at = put_u16(into, at, who.actor);
    put_u32(into, at, who.instance)
}

/// An arbitrator's ruling.
#[tactic(auto, unfolding(crate::specs::Texts::ruling_bytes))]
pub fn put_ruling(into: &mut [u8], at: usize, ruling: Ruling) -> usize
    requires { at + 1 ≤ length into.old }
    ensures wrote { Puts (ruling_bytes ruling) into.old at into.new result }
    ensures end { result ≡ at + 1 }
{
    let code = match ruling {
        Ruling::Granted => 1,
        Ruling::Taken => 2,
        Ruling::Refused => 3,
    };
    put_u8(into, at, code)
}

/// An epoch.
#[tactic(auto, unfolding(crate::specs::Texts::epoch_bytes))]
pub fn put_epoch(into: &mut [u8], at: usize, epoch: Epoch) -> usize
    requires { at + 8 ≤ length into.old }
    ensures wrote { Puts (epoch_bytes epoch) into.old at into.new result }
    ensures end { result ≡ at + 8 }
{
    let at = put_u32(into, at, epoch.data_loss);
    put_u32(into, at, epoch.configuration)
}

/// A partition and an epoch.
#[tactic(auto, unfolding(crate::specs::Texts::unit_bytes))]
pub fn put_unit(into: &mut [u8], at: usize, partition: u16, epoch: Epoch) -> usize
    requires { at + 10 ≤ length into.old }
    ensures wrote { Puts (unit_bytes partition epoch) into.old at into.new result }
    ensures end { result ≡ at + 10 }
{
    let at = put_u16(into, at, partition);
    put_epoch(into, at, epoch)
}

/// A partition, an epoch and the number of an entry.
pub fn put_numbered(into: &mut [u8], at: usize, partition: u16, epoch: Epoch, number: u32) -> usize
    requires { at + 14 ≤ length into.old }
    ensures wrote { Puts (numbered_bytes partition epoch number) into.old at into.new result }
    ensures end { result ≡ at + 14 }
{
    let at = put_unit(into, at, partition, epoch);
    put_u32(into, at, number)
}

/// A victim, a round about it and its claimer.
pub fn put_claim(into: &mut [u8], at: usize, victim: Who, round: u8, claimer: Who) -> usize
    requires { at + 13 ≤ length into.old }
    ensures wrote { Puts (claim_bytes victim round claimer) into.old at into.new result }
    ensures end { result ≡ at + 13 }
{
    let at = put_who(into, at, victim);
    let at = put_u8(into, at, round);
    put_who(into, at, claimer)
}

// The points from one to another.
#[tactic(auto, unfolding(crate::specs::Texts::interval_bytes))]
fn put_interval(into: &mut [u8], at: usize, interval: Interval) -> usize
    requires { at + interval_size ≤ length into.old }
    ensures wrote { Puts (interval_bytes interval) into.old at into.new result }
    ensures end { result ≡ at + interval_size }
{
    let at = put_u64(into, at, interval.lo);
    put_u64(into, at, interval.hi)
}

// Intervals, one after the other.
fn put_intervals(into: &mut [u8], at: usize, intervals: &[Interval]) -> usize
    requires { at + interval_size * length intervals.now ≤ length into.old }
    ensures { Puts (flat_map interval_bytes intervals.now) into.old at into.new result }
{
    let mut end = at;
    for interval in intervals {
        end = put_interval(into, end, *interval);
    }
    end
}

/// A range set: how many intervals it has, and each of them.
#[tactic(auto, unfolding(crate::specs::Texts::ranges_bytes, crate::specs::Texts::list_bytes))]
pub fn put_ranges(into: &mut [u8], at: usize, ranges: &RangeSet) -> usize
    requires { at + most_ranges_size ≤ length into.old }
    ensures { Puts (ranges_bytes ranges.now) into.old at into.new result }
{
    let intervals = ranges.intervals();
    let at = put_u8(into, at, intervals.len() as u8);
    put_intervals(into, at, intervals)
}

// Nodes, one after the other.
fn put_nodes(into: &mut [u8], at: usize, nodes: &[u16]) -> usize
    requires { at + 2 * length nodes.now ≤ length into.old }
    ensures { Puts (flat_map (number_bytes 2) nodes.now) into.old at into.new result }
{
    let mut end = at;
    for node in nodes {
        end = put_u16(into, end, *node);
    }
    end
}

// How many members there are, and each of them.
#[tactic(auto, unfolding(crate::specs::Texts::list_bytes))]
fn put_members(into: &mut [u8], at: usize, members: &[u16]) -> usize
    requires room { at + most_members_size ≤ length into.old }
    requires few { length members.now ≤ MAX_MEMBERS }
    ensures { Puts (list_bytes (number_bytes 2) members.now) into.old at into.new result }
{
    let at = put_u8(into, at, members.len() as u8);
    put_nodes(into, at, members)
}

/// A configuration, which has at most `MAX_MEMBERS` members.
#[tactic(auto, unfolding(crate::specs::Texts::config_bytes))]
pub fn put_config(into: &mut [u8], at: usize, config: &Config) -> usize
    requires room { at + most_config_size ≤ length into.old }
    requires few { length config.now.members ≤ MAX_MEMBERS }
    ensures { Puts (config_bytes config.now) into.old at into.new result }
{
    let at = put_unit(into, at, config.partition, config.epoch);
    let at = put_u16(into, at, config.primary);
    put_members(into, at, config.members.as_slice())
}

/// A flag that says whether there is a configuration, and the configuration.
#[tactic(auto, unfolding(crate::specs::Texts::done_bytes))]
pub fn put_done(into: &mut [u8], at: usize, done: &Option<Config>) -> usize
    requires room { at + most_done_size ≤ length into.old }
    requires sound { IsTrue (is_done done.now) }
    ensures { Puts (done_bytes done.now) into.old at into.new result }
{
    match done {
        None => put_flag(into, at, false),
        Some(config) => {
            let at = put_flag(into, at, true);
            put_config(into, at, config)
        }
    }
}

// Bytes as they are.
fn put_bytes(into: &mut [u8], at: usize, bytes: &[u8]) -> usize
    requires { at + length bytes.now ≤ length into.old }
    ensures { Puts bytes.now into.old at into.new result }
{
    let end = at + bytes.len();
    into[at..end].copy_from_slice(bytes);
    end
}

/// A text of at most `MAX_WRITE` bytes: its length, and its bytes.
#[tactic(auto, unfolding(crate::specs::Texts::payload_bytes))]
pub fn put_payload(into: &mut [u8], at: usize, text: &Payload) -> usize
    requires room { at + most_payload_size ≤ length into.old }
    requires short { length text.now ≤ MAX_WRITE }
    ensures { Puts (payload_bytes text.now) into.old at into.new result }
{
    let bytes = text.as_slice();
    let at = put_u16(into, at, bytes.len() as u16);
    put_bytes(into, at, bytes)
}
