ghost use Rattle.std.specs.Prelude.{◌≡◌};
ghost use Rattle.replica_core.specs.Roles.{demoted, role_of};

use ring_points::Config;

/// What a replica is to its partition. No promise, entry or log changes it, but that a primary whose replica promises a
/// greater epoch is an active secondary from then on.
#[derive(Clone, Copy, Debug, PartialEq, Eq)]
pub enum Role {
    /// Nothing yet: the replica is new, or its node has started again.
    None,
    /// A reconfiguration has asked it to take a log, and has not activated it.
    IdleSecondary,
    /// A member of the active configuration, and not its primary.
    ActiveSecondary,
    /// The member that takes the writes of its epoch.
    Primary,
}

impl Role {
    /// The role once a greater epoch is promised: a primary takes no writes any more.
    pub(crate) fn demoted(self) -> Role
        ensures { result ≡ demoted self }
    {
        match self {
            Role::Primary => Role::ActiveSecondary,
            role => role,
        }
    }

    /// The role of a member of a configuration.
    pub(crate) fn of_member(node: u16, config: &Config) -> Role
        ensures { result ≡ role_of node config.now }
    {
        if config.primary == node {
            Role::Primary
        } else {
            Role::ActiveSecondary
        }
    }
}
