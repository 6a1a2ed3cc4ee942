ghost use Rattle.std.specs.Prelude.{◌≡◌, length, map};
ghost use Rattle.unit_manager.specs.Laws.{unloaded_at};

use replica_place::NodeLoad;
use ring_node::RingNode;

/// No node.
pub(crate) const NO_NODE: NodeLoad = NodeLoad {
    node: 0,
    domain: 0,
    up: false,
    load: 0,
};

/// These nodes as placement sees them, without their loads, in places for as many: up is who was heard since then.
pub(crate) fn fill_unloaded(
    domains: &[(u16, u16)],
    ring: &RingNode,
    since: u64,
    nodes: &mut [NodeLoad],
)
    requires { length nodes.old ≡ length domains.now }
    ensures { nodes.new ≡ map (unloaded_at since ring.now.ring) domains.now }
{
    for i in 0..domains.len() {
        let (node, domain) = domains[i];
        nodes[i] = NodeLoad {
            node,
            domain,
            up: ring.is_up(since, node),
            load: 0,
        };
    }
}
