// What a keeper has of an actor, as one run of bytes.
use edge_io::Keeper;
use std::alloc::Global;
use std::process::Abort;

/// These records, each with a semicolon behind it.
fn joined(rt: &impl Abort, alloc: Global, records: &[Vec<u8>]) -> Vec<u8> {
    let mut all = Vec::new(alloc);
    for record in records {
        all.extend_from_slice(record).expect(rt, "memory");
        all.push(b';').expect(rt, "memory");
    }
    all
}

/// Asserts that these are the records of an actor, each with a semicolon behind it; None where the keeper fails.
pub(crate) fn kept_are<K: Keeper>(
    rt: &impl Abort,
    alloc: Global,
    keeper: &mut K,
    actor: u16,
    want: Option<&[u8]>,
) {
    let found = keeper.records(actor).ok();
    let all = found.map(|records| joined(rt, alloc, &records));
    assert_eq!(rt; all.as_deref(), want, "of {actor}");
}
