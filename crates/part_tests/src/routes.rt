ghost use Rattle.std.specs.Prelude.{◌≡◌};
ghost use Rattle.ring_points.specs.Whos.{node_instance};

use crate::rows::agree;
use ring_points::{Point, Who};
use ring_route::{Hop, RouteTable, chains_end};

const HIGH: u64 = 1 << 63;

fn node(actor: u16) -> Who
    ensures { result ≡ node_instance actor 1 }
{
    Who { actor, instance: 1 }
}

/// The routes of node 1, which has heard nobody: node 2 stands on the other side of the ring.
fn two_nodes() -> RouteTable {
    RouteTable::new(node(1), &[(1, Point(0)), (2, Point(HIGH))])
}

/// The same routes once node 2 is heard.
fn two_up() -> RouteTable {
    let mut table = RouteTable::new(node(1), &[(1, Point(0)), (2, Point(HIGH))]);
    table.heard(node(2), 100);
    table
}

#[test]
fn a_search_goes_nowhere_where_nobody_is_known(rt: HostRuntime) {
    let hop = two_nodes().next(Point(HIGH), false, None, &[]);
    assert_eq!(rt; hop, Hop::Nowhere);
    chains_end();
}

#[test]
fn a_search_goes_to_the_nearer_of_two_nodes(rt: HostRuntime) {
    let table = two_up();
    let low = Point(0x1000_0000_0000_0000);
    let middle = Point(0x7000_0000_0000_0000);
    let rows = [
        (table.next(middle, false, None, &[]), Hop::To(node(2))),
        (table.next(low, false, None, &[]), Hop::Nowhere),
        (table.next(Point(HIGH), false, Some(2), &[]), Hop::Nowhere),
        (table.next(Point(HIGH), true, None, &[]), Hop::Here),
        (
            table.next(Point(HIGH), false, None, &[node(2)]),
            Hop::Nowhere,
        ),
    ];
    agree(&rt, &rows);
}

fn second_instance() -> Who
    ensures { result ≡ node_instance 2 2 }
{
    Who {
        actor: 2,
        instance: 2,
    }
}

/// The same routes once the second instance of node 2 is heard, and the first after it.
fn two_up_again() -> RouteTable {
    let mut table = RouteTable::new(node(1), &[(1, Point(0)), (2, Point(HIGH))]);
    table.heard(second_instance(), 100);
    table.heard(node(2), 200);
    table
}

#[test]
fn the_latest_instance_counts(rt: HostRuntime) {
    let second = second_instance();
    let table = two_up_again();
    let rows = [
        (table.up(2, 100), Some(second)),
        (table.up(2, 101), None),
        (table.up(1, 0), None),
    ];
    agree(&rt, &rows);
}

/// The routes of node 1, at 10, which has heard the nodes at 5, 20 and 30.
fn four_nodes() -> RouteTable {
    let points = [
        (1, Point(10)),
        (2, Point(20)),
        (3, Point(30)),
        (4, Point(5)),
    ];
    let mut table = RouteTable::new(node(1), &points);
    table.heard(node(3), 0);
    table.heard(node(2), 0);
    table.heard(node(4), 0);
    table
}

#[test]
fn near_nodes_stand_on_both_sides(rt: HostRuntime) {
    let table = four_nodes();
    for (count, accused, want) in [
        (1, [].as_slice(), [2, 4].as_slice()),
        (2, [].as_slice(), [2, 3, 4].as_slice()),
        (2, [node(2)].as_slice(), [3, 4].as_slice()),
        (0, [].as_slice(), [].as_slice()),
    ] {
        assert!(rt; count <= 4);
        let near = table.near(count, accused);
        assert_eq!(rt; near.as_slice(), want, "{count} without {accused:?}");
    }
}
