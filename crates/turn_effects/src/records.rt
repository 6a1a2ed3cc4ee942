// The records of a step.
ghost use Rattle.std.specs.Prelude.{◌∷◌, [], map, All, IsTrue};
ghost use Rattle.keep_log.specs.Spellings.{is_sound, spelling};
ghost use Rattle.turn_effects.specs.Carried.{KeepsAll};

use edge_io::{EdgeRefusal, Outside};
use fabric_terms::Record;
use keep_log::{RECORD_LIMIT, encode_record};
use turn_rules::StopCause;

/// Keeps a record of an actor. Its bytes are made in the buffer.
fn keep_one<O: Outside>(
    outside: &mut O,
    actor: u16,
    kept: &Record,
    buffer: &mut [u8; RECORD_LIMIT],
) -> Result<(), StopCause>
    requires { IsTrue (is_sound kept.now) }
    ensures { KeepsAll actor (spelling kept.now ∷ []) (O.told outside.old) (O.told outside.new) result }
{
    let length = encode_record(kept, buffer);
    match outside.append_synced(actor, &buffer[..length]) {
        Ok(()) => Ok(()),
        Err(EdgeRefusal::Failed) => Err(StopCause::KeepFault),
        Err(EdgeRefusal::OutOfMemory) => Err(StopCause::OutOfMemory),
    }
}

/// Keeps records of an actor, each for good before the next. After a refusal a front of them is kept.
pub fn keep_all<O: Outside>(
    outside: &mut O,
    actor: u16,
    records: &[Record],
) -> Result<(), StopCause>
    requires { All (λ r. IsTrue (is_sound r)) records.now }
    ensures { KeepsAll actor (map spelling records.now) (O.told outside.old) (O.told outside.new) result }
{
    // Few steps record something, and the others clear no buffer.
    if records.is_empty() {
        return Ok(());
    }
    let mut buffer = [0u8; RECORD_LIMIT];
    for record in records {
        keep_one(outside, actor, record, &mut buffer)?;
    }
    Ok(())
}
