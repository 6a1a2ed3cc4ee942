ghost use Rattle.std.specs.Prelude.{◌≡◌};
ghost use Rattle.turn_plans.specs.Crews.{is_configured_arbitrator, is_crew};

use fabric_terms::FabricConfig;
use world_rules::is_configured_node;

/// Whose turns a command takes: those of one node, of one arbitrator, or of every configured actor.
#[derive(Clone, Copy, Debug, PartialEq, Eq)]
pub enum Crew {
    /// The node of this number.
    Node(u16),
    /// The arbitrator of this number, from 1.
    Arbiter(u8),
    /// All nodes, rising, and then all arbitrators.
    Cluster,
}

/// Whether the configuration has an arbitrator of this number.
fn is_configured_arbitrator(config: &FabricConfig, arbiter: u8) -> bool
    ensures { result ≡ is_configured_arbitrator config.now arbiter }
{
    config
        .arbiters
        .as_slice()
        .iter()
        .any(|entry| entry.0 == u16::from(arbiter))
}

/// Whether the configuration has whom the words name.
pub(crate) fn is_crew(config: &FabricConfig, crew: Crew) -> bool
    ensures { result ≡ is_crew config.now crew }
{
    match crew {
        Crew::Node(node) => is_configured_node(config, node),
        Crew::Arbiter(arbiter) => is_configured_arbitrator(config, arbiter),
        Crew::Cluster => true,
    }
}
