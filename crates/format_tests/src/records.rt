use keep_log::{KeptError, read_records};
use replica_core::{Done, Replica, ReplicaRefusal};
use ring_points::Epoch;
use std::alloc::{AllocError, Global};
use std::test::Fail;

pub(crate) const BOOT_1: &[u8] = &[1, 0, 0, 0, 1];

pub(crate) const BOOT_2: &[u8] = &[1, 0, 0, 0, 2];

/// Partition 5 has promised 0.7.
pub(crate) const PROMISED: &[u8] = &[6, 0, 5, 0, 0, 0, 0, 0, 0, 0, 7];

/// A list of records as a keeper gives it back.
pub(crate) fn records(alloc: Global, list: &[&[u8]]) -> Result<Vec<Vec<u8>>, AllocError> {
    let mut records = Vec::new(alloc);
    for bytes in list {
        let mut record = Vec::new(alloc);
        record.extend_from_slice(bytes)?;
        records.push(record)?;
    }
    Ok(records)
}

fn epoch(configuration: u32) -> Epoch {
    Epoch {
        data_loss: 0,
        configuration,
    }
}

#[test]
fn two_boots_are_counted(rt: HostRuntime) -> Result<(), Fail> {
    let boots = records(rt.alloc(), &[BOOT_1, BOOT_2])?;
    let kept = read_records(rt.alloc(), &boots)?;
    assert!(rt; kept.boots == 2);
    Ok(())
}

/// Whether the first record is named as a bad one, where this is the only one.
fn is_bad(alloc: Global, bytes: &[u8]) -> Result<bool, AllocError> {
    let only = records(alloc, &[bytes])?;
    let read = read_records(alloc, &only);
    Ok(matches!(read, Err(KeptError::BadRecord(1))))
}

#[test]
fn the_first_bad_record_is_named(rt: HostRuntime) -> Result<(), Fail> {
    assert!(rt; is_bad(rt.alloc(), BOOT_2)?);
    assert!(rt; is_bad(rt.alloc(), &[1, 0])?);
    Ok(())
}

/// Whether a replica is of partition 5 and has promised 0.7: it refuses what is older, and holds that promise.
fn has_promised(replica: &mut Replica) -> bool {
    let older = Err(ReplicaRefusal::Older(epoch(7)));
    replica.partition() == 5
        && replica.append(epoch(6), 1, b"x") == older
        && replica.promise(epoch(7)) == Ok(Done::Held)
}

// A promise outlives a stop: what is older is refused after the records were read again.
#[test]
fn a_promise_is_read_again(rt: HostRuntime) -> Result<(), Fail> {
    let promised = records(rt.alloc(), &[BOOT_1, PROMISED])?;
    let mut replicas = read_records(rt.alloc(), &promised)?.replicas.into_vec();
    match replicas.last_mut() {
        Some(replica) => assert!(rt; has_promised(replica)),
        None => panic!(rt; "no replica"),
    }
    Ok(())
}
