// A node that begins with the replica that its records amount to.

use crate::turns::configs::{ADOPTED, BOOT, BOOT_AGAIN, DUO, PROMISED};
use crate::turns::memory::{Call, NONE, expect_kept};
use crate::turns::rows::expect_datagram;
use edge_io::MemKeeper;
use std::alloc::Global;
use std::test::Fail;

/// Its first entry is `set a 7`.
const WROTE: &[u8] = b"\x07\x00\x01\x00\x00\x00\x00\x00\x00\x00\x01\x00\x00\x00\x01\x00\x07set a 7";

/// And its second one `set b 8`.
const WROTE_NEXT: &[u8] =
    b"\x07\x00\x01\x00\x00\x00\x00\x00\x00\x00\x01\x00\x00\x00\x02\x00\x07set b 8";

/// 2.1 tells whichever instance of node 1 runs that it alone has partition 1 in 0.1.
const ACTIVATE: &[u8] =
    b"\x53\x01\x36\x00\x02\x00\x00\x00\x01\x00\x01\x00\x00\x00\x00\x00\x01\x00\x00\x00\x00\x00\x00\x00\x01\x00\x01\x01\x00\x01";

/// 1.2 has that role.
const ACTIVATED: &[u8] =
    b"\x53\x01\x37\x00\x01\x00\x00\x00\x02\x00\x02\x00\x00\x00\x01\x00\x01\x00\x00\x00\x00\x00\x00\x00\x01";

/// Node 1 takes that role in the first turn. In the second it writes, and tells the names of both entries.
const SECOND_START: Call = Call {
    words: &["node", "1", "2"],
    lines: &[
        DUO,
        "2 write 1 set b 8\n2 names 1 0000000000000000-ffffffffffffffff",
    ],
    arrivals: &[(1, Some(ACTIVATE))],
    readings: &[0],
};

const TOLD: &[u8] =
    b"0 - 1.2 0 own - -\n1 - 1.2 0 primary 1 0.1\n2 - 1.2 0 accepted 1 0.1 2\n2 - 1.2 0 committed 1 0.1 2\n2 - 1.2 0 names 1 a,b\nend 2\n";

/// What node 1 kept in its first instance.
fn with_replica(alloc: Global) -> Result<MemKeeper, Fail> {
    let mut records = Vec::new(alloc);
    for record in [BOOT, PROMISED, ADOPTED, WROTE] {
        records.push(Vec::from_slice(alloc, record)?)?;
    }
    let lists = vec![in alloc; (1, records)]?;
    Ok(MemKeeper::new(alloc, lists, Vec::new(alloc)))
}

#[test]
fn a_node_begins_with_its_replica(rt: HostRuntime) -> Result<(), Fail> {
    let alloc = rt.alloc();
    let mut keeps = with_replica(alloc)?;
    let left = SECOND_START.run(alloc, &mut keeps, NONE)?;
    left.expect(&rt, 0, TOLD, 1);
    for datagram in left.links.sent() {
        expect_datagram(&rt, datagram, "n2", ACTIVATED);
    }
    let wanted = [BOOT, PROMISED, ADOPTED, WROTE, BOOT_AGAIN, WROTE_NEXT];
    expect_kept(&rt, &mut keeps, 1, &wanted)
}
