use crate::turns::configs::{ACCUSE, ACCUSED_BY, BOOT, DUO, HELLO, ONE};
use crate::turns::memory::{Call, Failing, NONE, expect_kept, keeper};
use edge_io::MemKeeper;
use std::alloc::Global;
use std::process::Abort;
use std::test::Fail;

/// A device whose calls may fail.
#[derive(Clone, Copy)]
enum Device {
    Source,
    Sink,
    Links,
    Keeper,
}

fn failing_at(device: Device, call: u64) -> Failing {
    let mut failing = NONE;
    match device {
        Device::Source => failing.source = call,
        Device::Sink => failing.sink = call,
        Device::Links => failing.links = call,
        Device::Keeper => failing.keeper = call,
    }
    failing
}

const WHOLE: &str = "0 - 1.1 0 own 0000000000000000-ffffffffffffffff -";

/// Node 1 for one turn.
const NODE: Call = Call {
    words: &["node", "1", "1"],
    lines: &[ONE],
    arrivals: &[],
    readings: &[0],
};

/// What a node is met with: which call fails, the status, what is written, how many records are kept. A failing append
/// keeps its record where the call's number is even.
type NodeFault = (Device, u64, u8, &'static [&'static str], usize);

const NODE_FAULTS: [NodeFault; 8] = [
    (Device::Source, 1, 3, &["fault read"], 0),
    (Device::Source, 2, 3, &["fault read"], 0),
    (Device::Keeper, 1, 10, &["fault keep"], 0),
    (Device::Keeper, 2, 10, &["fault keep"], 1),
    (Device::Links, 1, 11, &["fault link"], 0),
    (Device::Links, 2, 0, &[WHOLE, "end 1"], 1),
    (Device::Sink, 1, 4, &[], 1),
    (Device::Sink, 2, 4, &[WHOLE], 1),
];

/// What node 1 tells at its next start, where so many of its starts are kept.
fn next_own(kept: usize) -> &'static str {
    if kept == 0 {
        WHOLE
    } else {
        "0 - 1.2 0 own - -"
    }
}

fn expect_node(rt: &impl Abort, alloc: Global, fault: &NodeFault) -> Result<(), Fail> {
    let failing = failing_at(fault.0, fault.1);
    let mut keeps = keeper(alloc, failing)?;
    NODE.expect(rt, alloc, &mut keeps, failing, (fault.2, fault.3, 0))?;
    expect_kept(rt, &mut keeps, 1, boots(fault.4))?;
    let wanted = [next_own(fault.4), "end 1"];
    NODE.expect(rt, alloc, &mut keeps, NONE, (0, &wanted, 0))
}

#[test]
fn a_node_at_each_fault_and_after_it(rt: HostRuntime) -> Result<(), Fail> {
    for fault in &NODE_FAULTS {
        expect_node(&rt, rt.alloc(), fault)?;
    }
    Ok(())
}

/// Arbitrator 1 for one turn, at which an accusation arrives.
const ARBITER: Call = Call {
    words: &["arbiter", "1", "1"],
    lines: &[DUO],
    arrivals: &[(32769, Some(ACCUSE))],
    readings: &[0],
};

/// The same of an arbitrator, and how many answers are sent.
type ArbiterFault = (Device, u64, u8, &'static [&'static str], usize, usize);

const ARBITER_FAULTS: [ArbiterFault; 8] = [
    (Device::Source, 1, 3, &["fault read"], 0, 0),
    (Device::Keeper, 1, 10, &["fault keep"], 0, 0),
    (Device::Keeper, 2, 10, &["fault keep"], 1, 0),
    (Device::Links, 1, 11, &["fault link"], 0, 0),
    (Device::Links, 2, 0, &["end 1"], 0, 0),
    (Device::Links, 3, 0, &["end 1"], 1, 0),
    (Device::Links, 4, 0, &["end 1"], 1, 1),
    (Device::Sink, 1, 4, &[], 1, 1),
];

fn accusations(kept: usize) -> &'static [&'static [u8]] {
    if kept == 0 { &[] } else { &[ACCUSED_BY] }
}

fn expect_arbiter(rt: &impl Abort, alloc: Global, fault: &ArbiterFault) -> Result<(), Fail> {
    let failing = failing_at(fault.0, fault.1);
    let mut keeps = keeper(alloc, failing)?;
    ARBITER.expect(rt, alloc, &mut keeps, failing, (fault.2, fault.3, fault.5))?;
    expect_kept(rt, &mut keeps, 32769, accusations(fault.4))?;
    ARBITER.expect(rt, alloc, &mut keeps, NONE, (0, &["end 1"], 1))?;
    expect_kept(rt, &mut keeps, 32769, accusations(1))
}

#[test]
fn an_arbitrator_at_each_fault_and_after_it(rt: HostRuntime) -> Result<(), Fail> {
    for fault in &ARBITER_FAULTS {
        expect_arbiter(&rt, rt.alloc(), fault)?;
    }
    Ok(())
}

const NOTHING: &str = "0 - 2.1 0 own - -";

const FENCED: &str = "2 - 1.1 0 own 0000000000000000-ffffffffffffffff 4000";

/// All actors for two turns: node 2 is told to link node 1, which hears a Hello of it.
const CLUSTER: Call = Call {
    words: &["cluster", "2"],
    lines: &[DUO, "1 2 link 1"],
    arrivals: &[(1, None), (1, Some(HELLO))],
    readings: &[0],
};

/// The same for one turn, in which nothing comes.
const REST: Call = Call {
    words: &["cluster", "1"],
    lines: &[DUO],
    arrivals: &[],
    readings: &[0],
};

/// What node 2 tells at its next start, where so many of its starts are kept.
fn next_nothing(kept: usize) -> &'static str {
    if kept == 0 {
        NOTHING
    } else {
        "0 - 2.2 0 own - -"
    }
}

/// Calls the cluster again on the same records, where so many starts of each node are kept.
fn expect_rest(
    rt: &impl Abort,
    alloc: Global,
    keeps: &mut MemKeeper,
    first: usize,
    second: usize,
) -> Result<(), Fail> {
    let wanted = [next_own(first), next_nothing(second), "end 1"];
    REST.expect(rt, alloc, keeps, NONE, (0, &wanted, 0))
}

#[test]
fn a_cluster_whose_source_fails_does_nothing(rt: HostRuntime) -> Result<(), Fail> {
    for call in 1..3 {
        let mut keeps = keeper(rt.alloc(), NONE)?;
        let failing = failing_at(Device::Source, call);
        let wanted: &[&str] = &["fault read"];
        CLUSTER.expect(&rt, rt.alloc(), &mut keeps, failing, (3, wanted, 0))?;
        expect_rest(&rt, rt.alloc(), &mut keeps, 0, 0)?;
    }
    Ok(())
}

/// What a cluster of two writes at each call of its keeper, and how many records its nodes have then: five lists are
/// read, then each node starts.
type KeeperFault = (u64, &'static [&'static str], usize, usize);

const KEEPER_FAULTS: [KeeperFault; 7] = [
    (1, &["fault keep"], 0, 0),
    (2, &["fault keep"], 0, 0),
    (3, &["fault keep"], 0, 0),
    (4, &["fault keep"], 0, 0),
    (5, &["fault keep"], 0, 0),
    (6, &["fault keep"], 1, 0),
    (7, &[WHOLE, "fault keep"], 1, 0),
];

fn boots(kept: usize) -> &'static [&'static [u8]] {
    if kept == 0 { &[] } else { &[BOOT] }
}

fn expect_at_keeper(rt: &impl Abort, alloc: Global, fault: &KeeperFault) -> Result<(), Fail> {
    let failing = failing_at(Device::Keeper, fault.0);
    let mut keeps = keeper(alloc, failing)?;
    CLUSTER.expect(rt, alloc, &mut keeps, failing, (10, fault.1, 0))?;
    expect_kept(rt, &mut keeps, 1, boots(fault.2))?;
    expect_kept(rt, &mut keeps, 2, boots(fault.3))?;
    expect_rest(rt, alloc, &mut keeps, fault.2, fault.3)
}

#[test]
fn a_cluster_at_each_fault_of_its_keeper_and_after_it(rt: HostRuntime) -> Result<(), Fail> {
    for fault in &KEEPER_FAULTS {
        expect_at_keeper(&rt, rt.alloc(), fault)?;
    }
    Ok(())
}

/// What a cluster of two does at each call of its links: five endpoints are opened; in turn 1 node 1 hears nothing,
/// node 2 says Hello, hears nothing and says it again, and the arbitrators hear nothing; in turn 2 node 1 hears the
/// Hello, offers, hears nothing more and offers again, and node 2 hears nothing and says Hello once more.
const LINK_FAULTS: [(u64, bool, usize); 16] = [
    (6, false, 3),
    (7, true, 4),
    (8, true, 5),
    (9, true, 4),
    (10, true, 5),
    (11, true, 5),
    (12, true, 5),
    (13, false, 3),
    (14, true, 4),
    (15, true, 5),
    (16, true, 4),
    (17, true, 5),
    (18, true, 4),
    (19, true, 5),
    (20, true, 5),
    (21, true, 5),
];

fn expect_not_opened(rt: &impl Abort, alloc: Global, call: u64) -> Result<(), Fail> {
    let mut keeps = keeper(alloc, NONE)?;
    let wanted: &[&str] = &["fault link"];
    let failing = failing_at(Device::Links, call);
    CLUSTER.expect(rt, alloc, &mut keeps, failing, (11, wanted, 0))?;
    expect_kept(rt, &mut keeps, 1, &[])?;
    expect_rest(rt, alloc, &mut keeps, 0, 0)
}

fn expect_at_links(
    rt: &impl Abort,
    alloc: Global,
    call: u64,
    greeted: bool,
    sent: usize,
) -> Result<(), Fail> {
    let mut keeps = keeper(alloc, NONE)?;
    let text: &[&str] = if greeted {
        &[WHOLE, NOTHING, FENCED, "end 2"]
    } else {
        &[WHOLE, NOTHING, "end 2"]
    };
    let failing = failing_at(Device::Links, call);
    CLUSTER.expect(rt, alloc, &mut keeps, failing, (0, text, sent))?;
    expect_kept(rt, &mut keeps, 2, &[BOOT])?;
    expect_rest(rt, alloc, &mut keeps, 1, 1)
}

#[test]
fn a_cluster_goes_on_at_each_fault_of_its_links(rt: HostRuntime) -> Result<(), Fail> {
    for call in 1..6 {
        expect_not_opened(&rt, rt.alloc(), call)?;
    }
    for (call, greeted, sent) in &LINK_FAULTS {
        expect_at_links(&rt, rt.alloc(), *call, *greeted, *sent)?;
    }
    Ok(())
}

/// What a cluster of two writes before each failing call of its sink, how many records node 2 has then, and how many
/// datagrams are sent.
type SinkFault = (u64, &'static [&'static str], usize, usize);

const SINK_FAULTS: [SinkFault; 4] = [
    (1, &[], 0, 0),
    (2, &[WHOLE], 1, 0),
    (3, &[WHOLE, NOTHING], 1, 3),
    (4, &[WHOLE, NOTHING, FENCED], 1, 5),
];

fn expect_at_sink(rt: &impl Abort, alloc: Global, fault: &SinkFault) -> Result<(), Fail> {
    let mut keeps = keeper(alloc, NONE)?;
    let failing = failing_at(Device::Sink, fault.0);
    CLUSTER.expect(rt, alloc, &mut keeps, failing, (4, fault.1, fault.3))?;
    expect_kept(rt, &mut keeps, 1, &[BOOT])?;
    expect_kept(rt, &mut keeps, 2, boots(fault.2))?;
    expect_rest(rt, alloc, &mut keeps, 1, fault.2)
}

#[test]
fn a_cluster_at_each_fault_of_its_sink(rt: HostRuntime) -> Result<(), Fail> {
    for fault in &SINK_FAULTS {
        expect_at_sink(&rt, rt.alloc(), fault)?;
    }
    Ok(())
}
