// The rows of a replica's records. Each tests the place of its record, and makes the call that the record was kept for.

ghost use Rattle.std.specs.Prelude.{◌≤◌, IsTrue, length};
ghost use Rattle.replica_core.specs.Calls.{promise_call, append_call, adopt_call};
ghost use Rattle.unit_rules.specs.Starts.{adopt_kept, past_all};
ghost use Rattle.keep_log.specs.Items.{recorded};
ghost use Rattle.keep_log.specs.Places.{is_promise, is_write, is_piece, is_adoption, is_row, row_call};
ghost use Rattle.keep_log.specs.Spellings.{is_sound};
ghost use Rattle.keep_log.specs.Taking.{Settles, Takes};

use crate::item::Item;
use crate::not_taken::NotTaken;
use crate::places::{is_adoption, is_piece, is_promise, is_write};
use replica_core::{Done, Replica, ReplicaRefusal};
use ring_points::{Epoch, MAX_LOG_ENTRIES, MAX_WRITE};

/// More than the number of any entry, so that an entry is only collected.
const PAST_ALL: u32 = MAX_LOG_ENTRIES + 1;

// What a call that was made comes to: in its place a record's call is refused for want of memory alone.
fn made(answer: Result<Done, ReplicaRefusal>) -> Result<(), NotTaken>
    ensures { Settles answer result }
{
    match answer {
        Err(ReplicaRefusal::OutOfMemory) => Err(NotTaken::OutOfMemory),
        _ => Ok(()),
    }
}

fn promised(replica: &mut Replica, epoch: Epoch) -> Result<(), NotTaken>
    ensures { Takes (is_promise epoch replica.old) (promise_call epoch replica.old).1 replica.new result }
{
    if !is_promise(replica, epoch) {
        return Err(NotTaken::OutOfPlace);
    }
    let answer = replica.promise(epoch);
    made(answer)
}

fn wrote(replica: &mut Replica, epoch: Epoch, lsn: u32, text: &[u8]) -> Result<(), NotTaken>
    requires { length text.now ≤ MAX_WRITE }
    ensures { Takes (is_write epoch lsn replica.old) (append_call epoch lsn text.now replica.old).1 replica.new result }
{
    if !is_write(replica, epoch, lsn) {
        return Err(NotTaken::OutOfPlace);
    }
    let answer = replica.append(epoch, lsn, text);
    made(answer)
}

fn incoming(
    replica: &mut Replica,
    epoch: Epoch,
    lsn: u32,
    entry_epoch: Epoch,
    text: &[u8],
) -> Result<(), NotTaken>
    requires entry { lsn ≤ MAX_LOG_ENTRIES }
    requires short { length text.now ≤ MAX_WRITE }
    ensures { Takes (is_piece epoch lsn replica.old)
        (adopt_call epoch (record { epoch = entry_epoch; lsn = lsn; bytes = text.now })
        past_all replica.old).1 replica.new result }
{
    if !is_piece(replica, epoch, lsn) {
        return Err(NotTaken::OutOfPlace);
    }
    let answer = replica.adopt_bytes(epoch, entry_epoch, lsn, text, PAST_ALL);
    made(answer)
}

fn adopted(replica: &mut Replica, epoch: Epoch, last: u32, own: bool) -> Result<(), NotTaken>
    ensures { Takes (is_adoption epoch last own replica.old)
        (adopt_kept epoch last own replica.old).1 replica.new result }
{
    if !is_adoption(replica, epoch, last, own) {
        return Err(NotTaken::OutOfPlace);
    }
    let answer = if own || last == 0 {
        replica.adopt_own(epoch, last)
    } else {
        replica.adopt_collected(epoch)
    };
    made(answer)
}

/// Takes a record of the replica, if it stands in its place.
pub fn take_row(replica: &mut Replica, item: Item<'_>) -> Result<(), NotTaken>
    requires sound { IsTrue (is_sound (recorded item)) }
    ensures { Takes (is_row (recorded item.entry) replica.old)
        (row_call (recorded item.entry) replica.old).1 replica.new result }
{
    match item {
        Item::PromisedAt { epoch, .. } => promised(replica, epoch),
        Item::Wrote {
            epoch,
            lsn,
            text,
            ..
        } => wrote(replica, epoch, lsn, text),
        Item::Incoming {
            epoch,
            lsn,
            entry_epoch,
            text,
            ..
        } => incoming(replica, epoch, lsn, entry_epoch, text),
        Item::AdoptedAt {
            epoch,
            last,
            own,
            ..
        } => adopted(replica, epoch, last, own),
        _ => Err(NotTaken::OutOfPlace),
    }
}
