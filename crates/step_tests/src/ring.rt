ghost use Rattle.std.specs.Prelude.{◌≡◌, ◌≤◌, IsTrue};
ghost use Rattle.fabric_terms.specs.Sound.{IsSound};
ghost use Rattle.ring_node.specs.Steps.{is_sound_input};
ghost use Rattle.ring_points.specs.Whos.{node_instance};

use crate::outboxes::outbox;
use fabric_config::read_config;
use fabric_terms::{Body, FabricConfig, Message, Outbox};
use ring_node::{Input, Reports, RingNode};
use ring_points::Who;
use std::alloc::Global;
use std::process::Abort;

/// Three nodes, the second and the third at these points, with three arbitrators and two rounds of heirs.
const CONFIG: &[u8] =
    br#"{"lease":3000,"answer":1000,"drift":10,"grain":1,"near":0,"rounds":2,"nodes":[{"node":1,"point":"0000000000000000"},{"node":2,"point":"8000000000000000"},{"node":3,"point":"7000000000000000"}],"arbiters":[{"arbiter":1},{"arbiter":2},{"arbiter":3}],"first":1}"#;

/// The points of nodes 2 and 3.
pub(crate) const HIGH: u64 = 1 << 63;

pub(crate) const LOWER: u64 = 7 << 60;

pub(crate) fn instance(actor: u16) -> Who
    ensures { result ≡ node_instance actor 1 }
{
    Who { actor, instance: 1 }
}

fn config(rt: &impl Abort, alloc: Global) -> FabricConfig
    ensures { IsSound result }
{
    match read_config(alloc, CONFIG) {
        Ok(config) => config,
        Err(_) => panic!(rt; "the configuration is refused"),
    }
}

fn begun(rt: &impl Abort, alloc: Global, config: &FabricConfig, me: Who) -> RingNode
    requires { IsSound config.now }
{
    match RingNode::new(alloc, config, me, 0, false) {
        Ok((node, _told)) => node,
        Err(_) => panic!(rt; "no memory"),
    }
}

/// A node's ring, and what its last step sent.
#[derive(Drop)]
pub(crate) struct Stepped {
    pub(crate) ring: RingNode,
    pub(crate) out: Outbox,
}

/// An instance of a node as it starts: the first of node 1 owns the ring, and every other looks for its place.
pub(crate) fn started(rt: &impl Abort, alloc: Global, me: Who) -> Stepped {
    let config = config(rt, alloc);
    Stepped {
        ring: begun(rt, alloc, &config, me),
        out: outbox(rt, alloc),
    }
}

/// The step of the ring at this reading when this comes. It gives what is reported.
pub(crate) fn step(at: &mut Stepped, now: u64, input: &Input) -> Reports
    requires now { now ≤ 1_000_000_000_000_000 }
    requires sound { IsTrue (is_sound_input input.now) }
{
    at.out.clear();
    at.ring.step(now, input, &mut at.out)
}

/// A frame of this actor's first instance to whichever instance of this node runs.
pub(crate) fn from(sender: Who, node: u16, body: Body) -> Input
    ensures { result ≡ Input.Frame (record { from = sender; to = node_instance node 0; body = body }) }
{
    let to = Who {
        actor: node,
        instance: 0,
    };
    Input::Frame(Message {
        from: sender,
        to,
        body,
    })
}
