ghost use Rattle.std.specs.Prelude.{◌≡◌, option_map};
ghost use Rattle.turn_rules.specs.Works.{address_of};

use fabric_terms::FabricConfig;
use ring_points::ARBITRATORS;
use turn_rules::{arbiter_address, node_address};

/// Where an actor listens, if it is configured.
#[tactic(auto, unfolding(turn_rules::specs::Works::address_of))]
pub(crate) fn address_of(config: &FabricConfig, actor: u16) -> Option<&str>
    ensures { option_map (λ at. at.now) result ≡ address_of config.now actor }
{
    if actor > ARBITRATORS {
        arbiter_address(config, actor - ARBITRATORS)
    } else {
        node_address(config, actor)
    }
}
