ghost use Rattle.std.specs.Prelude.{◌≡◌, [], true, map, IfOk};
ghost use Rattle.ring_rules.specs.Arbiters.{no_table};
ghost use Rattle.arbiter_tables.specs.Registers.{are_placed};
ghost use Rattle.keep_log.specs.Outcomes.{Reads};
ghost use Rattle.keep_log.specs.Places.{is_once};

use crate::kept::Kept;
use crate::kept_error::KeptError;
use crate::not_taken::NotTaken;
use crate::reading::Reading;
use std::alloc::Global;

/// What these records amount to. `BadRecord(i)`, from 1, comes exactly where record i is the first that is none, or is
/// not in its place: the boots of a node count from 1, a victim and a round have one record, what a register or a
/// replica keeps follows what it kept before, and no list has records of a node and of an arbitrator.
pub fn read_records(alloc: Global, records: &[Vec<u8>]) -> Result<Kept, KeptError>
    ensures reads { Reads (map (λ v. v.items) records.now) result }
    ensures once { IfOk result (λ kept. is_once no_table kept.arbiter ≡ true) }
    ensures placed { IfOk result (λ kept. are_placed [] kept.arbiter ≡ true) }
{
    let mut reading = Reading::new(alloc);
    for (i, bytes) in records.iter().enumerate() {
        match reading.take(bytes.as_slice()) {
            Ok(()) => {}
            Err(NotTaken::OutOfPlace) => return Err(KeptError::BadRecord(i + 1)),
            Err(NotTaken::OutOfMemory) => return Err(KeptError::OutOfMemory),
        }
    }
    Ok(reading.finish()?)
}
