ghost use Rattle.std.specs.Prelude.{◌≤◌};

use crate::rows::agree;
use replica_place::{NodeLoad, TooFewDomains, place};
use std::process::Abort;

fn node(node: u16, domain: u16, up: bool, load: u32) -> NodeLoad {
    NodeLoad {
        node,
        domain,
        up,
        load,
    }
}

/// Why so many are placed nowhere.
fn refusal(nodes: &[NodeLoad], count: u8) -> Option<TooFewDomains>
    requires { count ≤ 7 }
{
    place(nodes, count).err()
}

/// Asserts that so many are placed on just these nodes, in this order.
fn are_placed(rt: &impl Abort, nodes: &[NodeLoad], count: u8, want: &[u16])
    requires { count ≤ 7 }
{
    match place(nodes, count) {
        Ok(placed) => assert_eq!(rt; placed.as_slice(), want),
        Err(few) => panic!(rt; "{few:?}"),
    }
}

#[test]
fn places_the_least_loaded_nodes_of_distinct_domains(rt: HostRuntime) {
    let nodes = [
        node(1, 1, true, 2),
        node(2, 1, true, 1),
        node(3, 2, true, 1),
        node(4, 3, true, 1),
    ];
    let uneven = [
        node(9, 64, true, 5),
        node(8, 7, false, 0),
        node(7, 7, true, 4),
        node(6, 64, true, 5),
        node(5, 1, true, 4_294_967_295),
    ];
    are_placed(&rt, &nodes, 1, &[2]);
    are_placed(&rt, &nodes, 2, &[2, 3]);
    are_placed(&rt, &nodes, 3, &[2, 3, 4]);
    are_placed(&rt, &uneven, 2, &[7, 6]);
    are_placed(&rt, &uneven, 3, &[7, 6, 5]);
}

#[test]
fn refuses_more_than_there_are_domains_with_an_up_node(rt: HostRuntime) {
    let nodes = [
        node(1, 1, true, 2),
        node(2, 1, true, 1),
        node(3, 2, true, 1),
        node(4, 3, false, 1),
    ];
    let rows = [
        (refusal(&nodes, 3), Some(TooFewDomains(2))),
        (refusal(&nodes, 7), Some(TooFewDomains(2))),
        (refusal(&[], 1), Some(TooFewDomains(0))),
    ];
    agree(&rt, &rows);
}
