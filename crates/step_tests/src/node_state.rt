use crate::whole_nodes::begun;
use fabric_terms::{Body, Command, Message};
use node_core::{NodeCore, NodeKept};
use ring_node::Input;
use ring_points::{Epoch, Who};
use ring_rules::LinkState;
use std::alloc::Global;
use std::process::Abort;

/// Another node, that node 1 has linked with, is the peer of the first slot.
fn shows_its_link(rt: &impl Abort, node: &NodeCore) {
    assert_eq!(rt; node.slots().len(), 16);
    match node.slots() {
        [Some(link), None, ..] => {
            assert_eq!(rt;
                (link.peer.actor, link.state, link.len),
                (2, LinkState::Hello, 3000)
            );
        }
        _ => panic!(rt; "not one link"),
    }
}

#[test]
fn a_node_shows_its_links(rt: HostRuntime) {
    let mut kept = NodeKept::new(rt.alloc());
    let (mut node, _, _) = begun(&rt, rt.alloc(), &mut kept);
    let command = Input::Do(Command::Link(2));
    if node.step(100, &command).is_err() {
        assert!(rt; node.step(100, &command).is_ok());
    }
    shows_its_link(&rt, &node);
}

/// Partition 7 is the only one that changes, to its first epoch, 0.1. No configuration of it is known yet.
fn shows_its_changes(rt: &impl Abort, node: &NodeCore) {
    assert_eq!(rt; (node.is_changing(7), node.is_changing(8)), (true, false));
    assert!(rt; node.config_of(7).is_none());
    match node.reconfigs() {
        [(partition, reconfig)] => {
            let epoch = reconfig.task().epoch;
            assert_eq!(rt;
                (*partition, epoch.data_loss, epoch.configuration),
                (7, 0, 1)
            );
        }
        _ => panic!(rt; "not one reconfiguration"),
    }
}

#[test]
fn a_node_shows_its_changes(rt: HostRuntime) {
    let mut kept = NodeKept::new(rt.alloc());
    let (mut node, _, _) = begun(&rt, rt.alloc(), &mut kept);
    let command = Input::Do(Command::Create(7, 1));
    if node.step(100, &command).is_err() {
        assert!(rt; node.step(100, &command).is_ok());
    }
    shows_its_changes(&rt, &node);
}

/// The partitions of the node's replicas. Where memory is short, it is asked again.
fn replicas_of(rt: &impl Abort, alloc: Global, node: &NodeCore) -> Vec<u16> {
    if let Ok(partitions) = node.replica_partitions(alloc) {
        return partitions;
    }
    match node.replica_partitions(alloc) {
        Ok(partitions) => partitions,
        Err(_) => panic!(rt; "no memory"),
    }
}

/// Instance 2.1 was heard at reading 300, and its Promise made a replica of partition 7.
fn shows_whom_it_heard(rt: &impl Abort, alloc: Global, node: &NodeCore) {
    let sender = Who {
        actor: 2,
        instance: 1,
    };
    assert_eq!(rt;
        (node.heard(2, 300), node.heard(2, 301)),
        (Some(sender), None)
    );
    assert_eq!(rt; replicas_of(rt, alloc, node).as_slice(), [7].as_slice());
}

#[test]
fn a_node_shows_whom_it_heard(rt: HostRuntime) {
    let mut kept = NodeKept::new(rt.alloc());
    let (mut node, _, _) = begun(&rt, rt.alloc(), &mut kept);
    assert_eq!(rt;
        (node.heard(2, 0), replicas_of(&rt, rt.alloc(), &node).len()),
        (None, 0)
    );
    let promise = Input::Frame(Message {
        from: Who {
            actor: 2,
            instance: 1,
        },
        to: Who {
            actor: 1,
            instance: 0,
        },
        body: Body::Promise {
            partition: 7,
            epoch: Epoch {
                data_loss: 0,
                configuration: 1,
            },
        },
    });
    if node.step(300, &promise).is_err() {
        assert!(rt; node.step(300, &promise).is_ok());
    }
    shows_whom_it_heard(&rt, rt.alloc(), &node);
}
