ghost use Rattle.std.specs.Prelude.{◌≡◌};
ghost use Rattle.world_rules.specs.Starts.{first_whole};

use fabric_terms::FabricConfig;
use ring_points::Who;

/// Who begins with the whole ring in the first life of a cluster: instance 1 of the first node.
pub fn first_whole(config: &FabricConfig) -> Who
    ensures { result ≡ first_whole config.now }
{
    Who {
        actor: config.first,
        instance: 1,
    }
}
