ghost use Rattle.std.specs.Option.{option_copied};
ghost use Rattle.std.specs.Prelude.{◌≡◌};
ghost use Rattle.fabric_terms.specs.declared.config.FabricConfig.{FabricConfig as Configuration};
ghost use Rattle.ring_world.specs.Answers.{StandsFor};
ghost use Rattle.unit_rules.specs.Ruled.{ruled};
ghost use Rattle.ring_world.specs.Replicas.{replica_in};
ghost use Rattle.world_rules.specs.Runs.{History};

use crate::world::World;
use replica_core::Replica;

impl World {
    /// The node's replica of a partition: None exactly where the node does not run or has no such replica.
    pub fn replica(&self, node: u16, partition: u16) -> Option<&Replica>
        ensures { (c : Configuration) (h : History) → StandsFor self.now c h →
            option_copied result ≡ replica_in (ruled c h) node partition }
    {
        let place = self.place_of(node)?;
        let running = self.running.get(place)?;
        running.node.replica(partition)
    }
}
