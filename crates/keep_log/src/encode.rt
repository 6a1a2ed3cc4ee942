ghost use Rattle.std.specs.Prelude.{◌≡◌, ◌≤◌, ◌+◌, ◌++◌, length, drop, IsTrue};
ghost use Rattle.wire_fields.specs.Writers.{Puts};
ghost use Rattle.keep_log.specs.Limits.{most_fields_size, most_record};
ghost use Rattle.keep_log.specs.Spellings.{is_sound, kind_of, fields_of, spelling};

use fabric_terms::Record;
use ring_points::MAX_WRITE;
use wire_fields::write::{
    put_claim, put_config, put_epoch, put_flag, put_numbered, put_payload, put_u8, put_u32,
    put_unit, put_who,
};

/// No record has more bytes.
pub const RECORD_LIMIT: usize = 600;

// A record holds a write, and the 40 bytes of its kind and of its other fields.
const _: () = prove!(MAX_WRITE + 40 <= RECORD_LIMIT);

fn kind_of(item: &Record) -> u8
    ensures { result ≡ kind_of item.now }
{
    match item {
        Record::Boot { .. } => 1,
        Record::AccusedBy { .. } => 2,
        Record::PreparedBy { .. } => 3,
        Record::VotedFor { .. } => 4,
        Record::DoneFor { .. } => 5,
        Record::PromisedAt { .. } => 6,
        Record::Wrote { .. } => 7,
        Record::Incoming { .. } => 8,
        Record::AdoptedAt { .. } => 9,
        Record::ClaimedBy { .. } => 10,
    }
}

// The fields of a boot or of an accusation. Gives the place after them.
fn put_early(into: &mut [u8; RECORD_LIMIT], at: usize, item: &Record) -> usize
    requires room { at + most_fields_size ≤ RECORD_LIMIT }
    requires high { kind_of item.now ≤ 2 }
    ensures { Puts (fields_of item.now) into.old at into.new result }
{
    match item {
        Record::Boot { instance } => put_u32(into, at, *instance),
        Record::AccusedBy { victim, first } => {
            let at = put_who(into, at, *victim);
            put_who(into, at, *first)
        }
        _ => unreachable!(),
    }
}

// The fields of a register's record. Gives the place after them.
fn put_registered(into: &mut [u8; RECORD_LIMIT], at: usize, item: &Record) -> usize
    requires room { at + most_fields_size ≤ RECORD_LIMIT }
    requires sound { IsTrue (is_sound item.now) }
    requires low { 3 ≤ kind_of item.now }
    requires high { kind_of item.now ≤ 5 }
    ensures { Puts (fields_of item.now) into.old at into.new result }
{
    match item {
        Record::PreparedBy {
            partition,
            epoch,
            preparer,
        } => {
            let at = put_unit(into, at, *partition, *epoch);
            put_who(into, at, *preparer)
        }
        Record::VotedFor { config } => put_config(into, at, config),
        Record::DoneFor { config } => put_config(into, at, config),
        _ => unreachable!(),
    }
}

// The fields of a replica's record. Gives the place after them.
fn put_replicated(into: &mut [u8; RECORD_LIMIT], at: usize, item: &Record) -> usize
    requires room { at + most_fields_size ≤ RECORD_LIMIT }
    requires sound { IsTrue (is_sound item.now) }
    requires low { 6 ≤ kind_of item.now }
    requires high { kind_of item.now ≤ 9 }
    ensures { Puts (fields_of item.now) into.old at into.new result }
{
    match item {
        Record::PromisedAt { partition, epoch } => put_unit(into, at, *partition, *epoch),
        Record::Wrote {
            partition,
            epoch,
            lsn,
            text,
        } => {
            let at = put_numbered(into, at, *partition, *epoch, *lsn);
            put_payload(into, at, text)
        }
        Record::Incoming {
            partition,
            epoch,
            lsn,
            entry_epoch,
            text,
        } => {
            let at = put_numbered(into, at, *partition, *epoch, *lsn);
            let at = put_epoch(into, at, *entry_epoch);
            put_payload(into, at, text)
        }
        Record::AdoptedAt {
            partition,
            epoch,
            last,
            own,
        } => {
            let at = put_numbered(into, at, *partition, *epoch, *last);
            put_flag(into, at, *own)
        }
        _ => unreachable!(),
    }
}

// The fields of a claim. Gives the place after them.
fn put_claimed(into: &mut [u8; RECORD_LIMIT], at: usize, item: &Record) -> usize
    requires room { at + most_fields_size ≤ RECORD_LIMIT }
    requires low { 10 ≤ kind_of item.now }
    ensures { Puts (fields_of item.now) into.old at into.new result }
{
    match item {
        Record::ClaimedBy {
            victim,
            round,
            claimer,
        } => { put_claim(into, at, *victim, *round, *claimer) }
        _ => unreachable!(),
    }
}

// The fields of a record. Gives the place after them.
fn put_fields(into: &mut [u8; RECORD_LIMIT], at: usize, item: &Record) -> usize
    requires room { at + most_fields_size ≤ RECORD_LIMIT }
    requires sound { IsTrue (is_sound item.now) }
    ensures { Puts (fields_of item.now) into.old at into.new result }
{
    match kind_of(item) {
        0..=2 => put_early(into, at, item),
        3..=5 => put_registered(into, at, item),
        6..=9 => put_replicated(into, at, item),
        _ => put_claimed(into, at, item),
    }
}

/// Writes the record to the front of `into`, and gives its length, which is at most `RECORD_LIMIT`. The bytes behind
/// it are left as they were.
pub fn encode_record(item: &Record, into: &mut [u8; RECORD_LIMIT]) -> usize
    requires { IsTrue (is_sound item.now) }
    ensures written { into.new ≡ spelling item.now ++ drop (length (spelling item.now)) into.old }
    ensures length { result ≡ length (spelling item.now) }
    ensures fits { result ≤ most_record }
{
    let at = put_u8(into, 0, kind_of(item));
    put_fields(into, at, item)
}
