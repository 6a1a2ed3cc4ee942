ghost use Rattle.std.specs.Prelude.{◌≡◌, ◌<◌, [], true, IfOk};
ghost use Rattle.fabric_terms.specs.Sound.{IsSound};
ghost use Rattle.world_rules.specs.Schedules.{is_configured_node};

use drift_clock::Bound;
use fabric_terms::{
    Address, Arbiters, Body, Command, FabricConfig, Message, NodeEntry, Nodes, OutOfMemory, Record,
    Report, Why,
};
use node_core::{NodeCore, NodeKept, Outcome};
use ring_node::Input;
use ring_points::{Point, RangeSet, Who};
use std::alloc::Global;
use std::process::Abort;

fn entry(alloc: Global, node: u16, point: u64) -> NodeEntry
    ensures { result ≡ record { node = node; point = record { 0 = point }; domain = 1; at = []; longest = 3000 } }
{
    NodeEntry {
        node,
        point: Point(point),
        domain: 1,
        at: Address::new(String::new(alloc)),
        longest: 3000,
    }
}

/// Node 1, which is the first, and node 2 opposite to it.
fn two_nodes(alloc: Global) -> Result<FabricConfig, OutOfMemory>
    ensures sound { IfOk result IsSound }
    ensures first { IfOk result (λ c. is_configured_node c 1 ≡ true) }
{
    let nodes = vec![in alloc; entry(alloc, 1, 0), entry(alloc, 2, 1 << 63)]?;
    let arbiters = vec![in alloc; (1, Address::new(String::new(alloc)))]?;
    Ok(FabricConfig {
        first: 1,
        near: 0,
        rounds: 2,
        lease: 3000,
        answer: 1000,
        bound: Bound { d: 10, grain: 1 },
        nodes: Nodes::new(nodes),
        arbiters: Arbiters::new(arbiters),
    })
}

fn config(rt: &impl Abort, alloc: Global) -> FabricConfig
    ensures sound { IsSound result }
    ensures first { is_configured_node result 1 ≡ true }
{
    match two_nodes(alloc) {
        Ok(config) => config,
        Err(OutOfMemory) => panic!(rt; "no memory"),
    }
}

/// The instance whose boot is all that is recorded, or 0 where nothing is.
fn booted(begun: &Outcome) -> Option<u32> {
    match begun.records.as_slice() {
        [] => Some(0),
        [Record::Boot { instance }] => Some(*instance),
        _ => None,
    }
}

fn told(begun: &Outcome) -> &'static str {
    match begun.reports.as_slice() {
        [Report::Own(_, None)] => "an owner without a fence",
        [Report::LeftRing(Why::Counters), Report::Own(..)] => "has left for want of numbers",
        _ => "something else",
    }
}

/// Node 1 as it begins at reading 7 with what it has kept, whose boot it records, and what it tells.
pub(crate) fn begun(
    rt: &impl Abort,
    alloc: Global,
    kept: &mut NodeKept,
) -> (Box<NodeCore>, Option<u32>, &'static str) {
    let config = config(rt, alloc);
    match NodeCore::begin(alloc, &config, 1, kept, 7) {
        Ok((node, begun)) => (node, booted(&begun), told(&begun)),
        Err(OutOfMemory) => panic!(rt; "no memory"),
    }
}

/// What a command to link with node 2 leaves. One that is refused for want of memory has done nothing, and can be given
/// again.
fn linked(rt: &impl Abort, node: &mut NodeCore) -> Outcome {
    let command = Input::Do(Command::Link(2));
    if let Ok(linked) = node.step(100, &command) {
        return linked;
    }
    match node.step(100, &command) {
        Ok(linked) => linked,
        Err(OutOfMemory) => panic!(rt; "no memory"),
    }
}

/// From and to whom the only frame of a command to link goes, where it is a Hello, and its number.
fn greeting(rt: &impl Abort, node: &mut NodeCore) -> Option<(Who, (u16, u32), u32)> {
    match linked(rt, node).frames.as_slice() {
        [Message { from, to, body }] => match body {
            Body::Hello { mine } => Some((*from, (to.actor, to.instance), *mine)),
            _ => None,
        },
        _ => None,
    }
}

/// Whether the node records and reports nothing as its time comes.
fn is_quiet(rt: &impl Abort, node: &mut NodeCore) -> bool {
    match &node.step(200, &Input::Fire) {
        Ok(fired) => fired.records.as_slice().is_empty() && fired.reports.as_slice().is_empty(),
        Err(OutOfMemory) => panic!(rt; "no memory"),
    }
}

fn owns_all(rt: &impl Abort, node: &NodeCore) {
    assert_eq!(rt; node.ranges().intervals(), RangeSet::whole().intervals());
    assert_eq!(rt; node.fence(), None);
}

#[test]
fn the_first_node_owns_the_ring(rt: HostRuntime) {
    let mut kept = NodeKept::new(rt.alloc());
    let (node, boot, told) = begun(&rt, rt.alloc(), &mut kept);
    assert_eq!(rt; (boot, told), (Some(1), "an owner without a fence"));
    owns_all(&rt, &node);
}

#[test]
fn the_first_node_greets_another(rt: HostRuntime) {
    let mut kept = NodeKept::new(rt.alloc());
    let (mut node, _, _) = begun(&rt, rt.alloc(), &mut kept);
    let greeting = greeting(&rt, &mut node);
    assert_eq!(rt; greeting, Some((node.me(), (2, 0), 1)));
    assert!(rt; is_quiet(&rt, &mut node));
}

/// The node has no number left. It links with no other, and owns nothing.
fn is_out(rt: &impl Abort, node: &mut NodeCore) {
    assert_eq!(rt; node.me().instance, u32::MAX);
    assert!(rt; linked(rt, node).frames.as_slice().is_empty());
    assert!(rt; node.ranges().intervals().is_empty());
}

#[test]
fn a_node_without_numbers_has_left(rt: HostRuntime) {
    let mut spent = NodeKept::new(rt.alloc());
    spent.boots = u32::MAX;
    let (mut node, boot, told) = begun(&rt, rt.alloc(), &mut spent);
    assert_eq!(rt; (boot, told), (Some(0), "has left for want of numbers"));
    is_out(&rt, &mut node);
}

/// This instance begins with what is kept and stops, which leaves what its next start is made of.
fn start_and_stop(rt: &impl Abort, alloc: Global, kept: &mut NodeKept, instance: u32) {
    let (mut node, boot, _) = begun(rt, alloc, kept);
    assert_eq!(rt; node.me(), Who { actor: 1, instance });
    assert_eq!(rt; boot, Some(instance));
    *kept = node.take_kept();
    assert_eq!(rt; kept.boots, instance);
}

#[test]
fn a_node_starts_again_from_what_it_gave_back(rt: HostRuntime) {
    let mut kept = NodeKept::new(rt.alloc());
    for instance in 1..4 {
        start_and_stop(&rt, rt.alloc(), &mut kept, instance);
    }
}

/// The next instance begins in the place of the node, and tells this.
fn begun_again(rt: &impl Abort, alloc: Global, node: &mut NodeCore) -> (Option<u32>, &'static str) {
    let config = config(rt, alloc);
    let mut kept = node.take_kept();
    match node.begin_again(&config, 1, &mut kept) {
        Ok(begun) => (booted(&begun), told(&begun)),
        Err(OutOfMemory) => panic!(rt; "no memory"),
    }
}

#[test]
fn a_node_begins_again_where_a_linked_one_was(rt: HostRuntime) {
    let mut kept = NodeKept::new(rt.alloc());
    let (mut node, _, _) = begun(&rt, rt.alloc(), &mut kept);
    greeting(&rt, &mut node);
    let (boot, told) = begun_again(&rt, rt.alloc(), &mut node);
    assert_eq!(rt; (boot, told), (Some(2), "an owner without a fence"));
    assert!(rt; node.ranges().intervals().is_empty());
    let greeting = greeting(&rt, &mut node);
    assert_eq!(rt; greeting, Some((node.me(), (2, 0), 1)));
}
