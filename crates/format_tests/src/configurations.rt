use fabric_config::{ConfigError, FabricConfig, Field, need_endpoints, read_config};
use std::alloc::Global;
use std::process::Abort;

pub(crate) const LINE: &str =
    r#"{"lease":3000,"answer":1000,"drift":10,"grain":1,"nodes":[{"node":1,"point":"0000000000000000"}],"arbiters":[{"arbiter":1},{"arbiter":2},{"arbiter":3}],"first":1}"#;

/// A line in which each field stands, a field twice, and fields that are none.
pub(crate) const FULL_LINE: &str =
    r#" {"first":999,"lease":1000000000,"lease":10,"answer":1000000000,"drift":100,"grain":1000000,"near":4,"rounds":8,"nodes":[{"node":999,"point":"fedcba9876543210","domain":64,"at":"a:1","longest":1000000000},{"at":"b:2","longest":10,"point":"00000000000000ff","node":2}],"arbiters":[{"arbiter":1,"at":"c:3"}],"note":{"lease":1}} "#;

fn read(rt: &impl Abort, alloc: Global, line: &str) -> FabricConfig {
    read_config(alloc, line.as_bytes()).expect(rt, "a configuration")
}

/// The lease, the answer, the drift and the grain, then near, the rounds and the first node, and how many nodes and
/// arbitrators there are.
fn numbers(config: &FabricConfig) -> [u64; 9] {
    [
        config.lease,
        config.answer,
        config.bound.d,
        config.bound.grain,
        config.near as u64,
        config.rounds as u64,
        config.first as u64,
        config.nodes.as_slice().len() as u64,
        config.arbiters.as_slice().len() as u64,
    ]
}

/// Whether the node at this place, from 0, has this number, point, domain and longest lease, and listens there.
fn is_node(config: &FabricConfig, place: usize, want: [u64; 4], at: &str) -> bool {
    match config.nodes.as_slice().get(place) {
        Some(node) => {
            let found = [node.node as u64, node.point.0, node.domain as u64];
            found == [want[0], want[1], want[2]]
                && node.longest == want[3]
                && node.at.as_str() == at
        }
        None => false,
    }
}

/// Whether the arbitrator at this place, from 0, listens there.
fn arbiter_is_at(config: &FabricConfig, place: usize, at: &str) -> bool {
    match config.arbiters.as_slice().get(place) {
        Some(arbiter) => arbiter.1.as_str() == at,
        None => false,
    }
}

#[test]
fn reads_a_line_with_all_defaults(rt: HostRuntime) {
    let config = read(&rt, rt.alloc(), LINE);
    assert_eq!(rt; numbers(&config), [3000, 1000, 10, 1, 0, 1, 1, 1, 3]);
    assert!(rt; is_node(&config, 0, [1, 0, 1, 3000], ""));
}

const LONG: u64 = 1_000_000_000;

/// The point of the first node of the line in which each field stands.
const HIGH: u64 = 0xfedc_ba98_7654_3210;

#[test]
fn reads_every_field(rt: HostRuntime) {
    let config = read(&rt, rt.alloc(), FULL_LINE);
    assert_eq!(rt;
        numbers(&config),
        [10, LONG, 100, 1_000_000, 4, 8, 999, 2, 1]
    );
    assert!(rt; is_node(&config, 0, [999, HIGH, 64, LONG], "a:1"));
    assert!(rt; is_node(&config, 1, [2, 255, 1, 10], "b:2"));
    assert!(rt; arbiter_is_at(&config, 0, "c:3"));
}

/// Whether the line lacks an endpoint.
fn lacks_endpoint(rt: &impl Abort, alloc: Global, line: &str) -> bool {
    let needed = need_endpoints(&read(rt, alloc, line));
    needed == Err(ConfigError::Missing(Field::At))
}

#[test]
fn an_endpoint_is_missed_where_it_is_needed(rt: HostRuntime) {
    assert!(rt; lacks_endpoint(&rt, rt.alloc(), LINE));
    let config = read(&rt, rt.alloc(), FULL_LINE);
    assert!(rt; need_endpoints(&config).is_ok());
}
