ghost use Rattle.std.specs.Prelude.{◌≡◌};
ghost use Rattle.world_rules.specs.Schedules.{command_names, is_configured_node};

use fabric_terms::{Command, FabricConfig};

/// Whether the configuration has a node of this number.
pub fn is_configured_node(config: &FabricConfig, node: u16) -> bool
    ensures { result ≡ is_configured_node config.now node }
{
    config
        .nodes
        .as_slice()
        .iter()
        .any(|entry| entry.node == node)
}

/// Whether the node that a command to `node` names is configured, and another where the command is about a link.
pub fn is_named(config: &FabricConfig, node: u16, command: &Command) -> bool
    ensures { result ≡ command_names config.now node command.now }
{
    match command {
        Command::Link(other)
        | Command::LinkFor(other, _)
        | Command::Part(other)
        | Command::GiveNear(other)
        | Command::GiveAll(other)
        | Command::Join(other) => is_configured_node(config, *other) && *other != node,
        Command::Swap(_, other) | Command::Lose(_, other) => is_configured_node(config, *other),
        _ => true,
    }
}
