use crate::turns::configs::{
    ACCUSE, ACCUSED_BY, BOOT, DUO, HELLO, ONE, ONE_WITHOUT_A3, PROMISED, RULED,
};
use crate::turns::memory::{Call, NONE, expect_kept, keeper};
use edge_io::{Datagram, Endpoint, MemKeeper};
use std::alloc::Global;
use std::process::Abort;
use std::test::Fail;

/// What a first node with the whole ring tells at its start.
const WHOLE: &str = "0 - 1.1 0 own 0000000000000000-ffffffffffffffff -";

#[test]
fn a_node_begins_and_begins_again(rt: HostRuntime) -> Result<(), Fail> {
    let alloc = rt.alloc();
    let mut keeps = keeper(alloc, NONE)?;
    let first = Call {
        words: &["node", "1", "1"],
        lines: &[ONE],
        arrivals: &[],
        readings: &[0, 5],
    };
    first.expect(&rt, alloc, &mut keeps, NONE, (0, &[WHOLE, "end 1"], 0))?;
    expect_kept(&rt, &mut keeps, 1, &[BOOT])?;
    let again = Call {
        words: &["node", "1", "1"],
        lines: &[ONE],
        arrivals: &[],
        readings: &[9, 9],
    };
    again.expect(
        &rt,
        alloc,
        &mut keeps,
        NONE,
        (0, &["0 - 1.2 9 own - -", "end 1"], 0),
    )
}

#[test]
fn a_clock_that_falls_ends_a_node(rt: HostRuntime) -> Result<(), Fail> {
    let alloc = rt.alloc();
    let mut keeps = keeper(alloc, NONE)?;
    let falling = Call {
        words: &["node", "1", "1"],
        lines: &[ONE],
        arrivals: &[],
        readings: &[5, 3],
    };
    let told = "0 - 1.1 5 own 0000000000000000-ffffffffffffffff -";
    falling.expect(
        &rt,
        alloc,
        &mut keeps,
        NONE,
        (12, &[told, "fault clock 5 3"], 0),
    )
}

#[test]
fn an_address_that_is_missing_is_told(rt: HostRuntime) -> Result<(), Fail> {
    let alloc = rt.alloc();
    let mut keeps = keeper(alloc, NONE)?;
    let without = Call {
        words: &["node", "1", "1"],
        lines: &[ONE_WITHOUT_A3],
        arrivals: &[],
        readings: &[0],
    };
    without.expect(
        &rt,
        alloc,
        &mut keeps,
        NONE,
        (5, &["fault config missing at"], 0),
    )?;
    expect_kept(&rt, &mut keeps, 1, &[])
}

/// What both nodes tell at their start, and node 1 once it has heard node 2.
const GREETED: &[u8] =
    b"0 - 1.1 0 own 0000000000000000-ffffffffffffffff -\n0 - 2.1 0 own - -\n2 - 1.1 0 own 0000000000000000-ffffffffffffffff 4000\nend 2\n";

/// Expects who sent each datagram, and of which kind it is.
fn expect_senders(rt: &impl Abort, sent: &[Datagram], wanted: &[(u16, u8)]) {
    assert_eq!(rt; sent.len(), wanted.len());
    for (datagram, want) in sent.iter().zip(wanted) {
        assert_eq!(rt; datagram.from, want.0);
        assert_eq!(rt; datagram.bytes.as_slice().get(2), Some(&(want.1)));
    }
}

/// Expects whose endpoints were opened.
fn expect_opened(rt: &impl Abort, opened: &[Endpoint], wanted: &[u16]) {
    assert_eq!(rt; opened.len(), wanted.len());
    for (endpoint, want) in opened.iter().zip(wanted) {
        assert_eq!(rt; endpoint.actor, *want);
    }
}

#[test]
fn a_cluster_of_two_greets(rt: HostRuntime) -> Result<(), Fail> {
    let alloc = rt.alloc();
    let mut keeps = keeper(alloc, NONE)?;
    let duo = Call {
        words: &["cluster", "2"],
        lines: &[DUO, "1 2 link 1"],
        arrivals: &[(1, None), (1, Some(HELLO))],
        readings: &[0],
    };
    let left = duo.run(alloc, &mut keeps, NONE)?;
    left.expect(&rt, 0, GREETED, 5);
    expect_senders(
        &rt,
        left.links.sent(),
        &[(2, 1), (2, 1), (1, 2), (1, 2), (2, 1)],
    );
    expect_opened(&rt, left.links.opened(), &[1, 2, 32769, 32770, 32771]);
    expect_kept(&rt, &mut keeps, 1, &[BOOT])?;
    expect_kept(&rt, &mut keeps, 2, &[BOOT])
}

/// Expects where a datagram goes, and its bytes.
pub(crate) fn expect_datagram(rt: &impl Abort, datagram: &Datagram, to: &str, bytes: &[u8]) {
    assert_eq!(rt; datagram.to.as_str(), to);
    assert_eq!(rt; datagram.bytes.as_slice(), bytes);
}

#[test]
fn an_arbitrator_rules(rt: HostRuntime) -> Result<(), Fail> {
    let alloc = rt.alloc();
    let mut keeps = keeper(alloc, NONE)?;
    let arbiter = Call {
        words: &["arbiter", "1", "1"],
        lines: &[DUO],
        arrivals: &[(32769, Some(ACCUSE))],
        readings: &[0],
    };
    let left = arbiter.run(alloc, &mut keeps, NONE)?;
    left.expect(&rt, 0, b"end 1\n", 1);
    for datagram in left.links.sent() {
        expect_datagram(&rt, datagram, "n1", RULED);
    }
    expect_kept(&rt, &mut keeps, 32769, &[ACCUSED_BY])
}

/// A node whose records are these ends with a fault that names one of them.
fn expect_bad(rt: &impl Abort, alloc: Global, records: &[&[u8]], fault: &str) -> Result<(), Fail> {
    let mut list = Vec::new(alloc);
    for record in records {
        list.push(Vec::from_slice(alloc, record)?)?;
    }
    let mut lists = Vec::new(alloc);
    lists.push((1, list))?;
    let mut keeps = MemKeeper::new(alloc, lists, Vec::new(alloc));
    let node = Call {
        words: &["node", "1", "1"],
        lines: &[ONE],
        arrivals: &[],
        readings: &[0],
    };
    node.expect(rt, alloc, &mut keeps, NONE, (14, &[fault], 0))
}

#[test]
fn a_bad_record_is_told(rt: HostRuntime) -> Result<(), Fail> {
    expect_bad(&rt, rt.alloc(), &[b"\x01\x00"], "fault record 1")
}

// A replica promises only what is above its promise, so the same promise again is out of its place.
#[test]
fn a_bad_record_of_a_replica_is_told(rt: HostRuntime) -> Result<(), Fail> {
    expect_bad(
        &rt,
        rt.alloc(),
        &[BOOT, PROMISED, PROMISED],
        "fault record 3",
    )
}
