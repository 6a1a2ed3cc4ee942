use crate::rows::agree;
use join_phases::{Booting, Phase, Why};
use ring_points::RangeSet;

fn founds(first: bool, instance: u32) -> bool {
    Booting::new(first, instance).found().is_ok()
}

#[test]
fn only_the_first_start_of_the_first_node_has_the_ring(rt: HostRuntime) {
    let rows = [
        (founds(true, 1), true),
        (founds(true, 2), false),
        (founds(false, 1), false),
        (founds(false, 2), false),
    ];
    agree(&rt, &rows);
}

#[test]
fn a_node_comes_by_a_link_and_ranges_and_leaves(rt: HostRuntime) {
    let Err(booting) = Booting::new(false, 1).found() else {
        panic!(rt; "another node than the first has founded the ring");
    };
    let Err(seeking) = booting.seek().bind(0) else {
        panic!(rt; "bound with no link");
    };
    let Ok(linked) = seeking.bind(1) else {
        panic!(rt; "not bound with a link");
    };
    let Err(linked) = linked.hold(&RangeSet::new()) else {
        panic!(rt; "routing with no ranges");
    };
    let Ok(routing) = linked.hold(&RangeSet::whole()) else {
        panic!(rt; "not routing with ranges");
    };
    let phase = Phase::Left(routing.leave(Why::Fence));
    assert!(rt; matches!(&phase, Phase::Left(left) if left.why == Why::Fence));
    let phase = Phase::Left(Booting::new(true, 2).seek().leave(Why::Lost));
    assert!(rt; matches!(&phase, Phase::Left(left) if left.why == Why::Lost));
}
