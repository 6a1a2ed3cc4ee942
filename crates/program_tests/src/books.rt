// The book of committed entries, by its public calls.
ghost use Rattle.std.specs.Prelude.{◌≤◌, length};

use replica_core::{Entry, EntryBytes};
use ring_points::Epoch;
use std::alloc::Global;
use std::test::Fail;
use write_safety::WriteBook;

/// The first epoch of a partition.
const FIRST: Epoch = Epoch {
    data_loss: 0,
    configuration: 1,
};

/// The first entry of a log.
fn entry_of(alloc: Global, bytes: &[u8]) -> Result<Entry, Fail>
    requires { length bytes.now ≤ 512 }
{
    Ok(Entry {
        epoch: FIRST,
        lsn: 1,
        bytes: EntryBytes::from_slice(alloc, bytes)?,
    })
}

#[test]
fn what_is_committed_is_kept(rt: HostRuntime) -> Result<(), Fail> {
    let alloc = rt.alloc();
    let log = [entry_of(alloc, b"hello")?];
    let mut book = WriteBook::new(alloc);
    book.commit(1, FIRST, 1, &log)?;
    assert!(rt; book.list(1, 0).len() == 1);
    assert!(rt; book.list(1, 1).is_empty());
    let mut text = Vec::new(alloc);
    book.print(&mut text)?;
    assert!(rt; text.as_slice() == b"kept 1 0 1 0.1 68656c6c6f\n".as_slice());
    Ok(())
}
