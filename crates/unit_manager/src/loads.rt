ghost use Rattle.std.specs.Prelude.{◌≡◌};
ghost use Rattle.unit_manager.specs.Managers.{loaded};

use failover_units::Units;
use replica_place::NodeLoad;

/// Fills in the load of each node, by the known units.
#[tactic(auto, using(crate::proofs::Loading::loaded_more, crate::proofs::Loading::loaded_all, crate::proofs::Loading::loaded_none))]
pub(crate) fn fill(units: &Units, nodes: &mut [NodeLoad])
    ensures { nodes.new ≡ loaded units.now nodes.old }
{
    for node in nodes.iter_mut() {
        node.load = units.load(node.node);
    }
}
