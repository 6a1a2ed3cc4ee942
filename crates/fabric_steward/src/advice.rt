ghost use Rattle.std.specs.Prelude.{◌≡◌};
ghost use Rattle.fabric_steward.specs.Rules.{command_of};

use fabric_terms::Command;
use ring_points::Point;

/// What a rule of the policy wants.
#[derive(Clone, Copy)]
pub enum Advice {
    /// Join the ring through this node.
    Join(u16),
    /// Look for the node that has this point: it was not heard for long.
    Look(Point),
    /// Ask this node for a link: nobody in its fault domain was heard, and more domains are needed.
    Greet(u16),
    /// Look for the node that manages.
    LookForManager,
    /// Create a partition with so many replicas.
    Create(u16, u8),
    /// Place a partition anew, to learn where it is.
    Learn(u16, u8),
    /// Place a partition anew, since it is not whole.
    Heal(u16, u8),
}

/// A reconfiguration that the policy has begun.
#[derive(Clone, Copy)]
pub enum Deed {
    Create,
    Learn,
    Heal,
}

impl Advice {
    /// The command that does it.
    pub fn command(self) -> Command
        ensures { result ≡ command_of self }
    {
        match self {
            Advice::Join(node) => Command::Join(node),
            Advice::Look(point) => Command::Find(point),
            Advice::Greet(node) => Command::Link(node),
            Advice::LookForManager => Command::Find(Point(0)),
            Advice::Create(partition, count) => Command::Create(partition, count),
            Advice::Learn(partition, count) | Advice::Heal(partition, count) => {
                Command::Heal(partition, count)
            }
        }
    }
}
