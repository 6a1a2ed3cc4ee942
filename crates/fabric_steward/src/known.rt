ghost use Rattle.std.specs.Prelude.{◌≡◌};
ghost use Rattle.std.specs.Option.{option_copied};
ghost use Rattle.fabric_steward.specs.Facts.{Facts};

use ring_points::{Config, Who};

/// What the code of a node can answer.
pub trait Known {
    /// What the node knows.
    ghost facts: { Self → Facts };

    /// Whether it routes.
    fn routes(&self) -> bool
        ensures { result ≡ (facts self.now).routes };

    /// Whether it routes and holds point 0 at this reading.
    fn manages(&self, now: u64) -> bool
        ensures { result ≡ (facts self.now).manages now };

    /// Whether a node is up at this reading.
    fn is_up(&self, node: u16, now: u64) -> bool
        ensures { result ≡ (facts self.now).is_up node now };

    /// The instance of a node that was heard last, if it was heard at `since` or later.
    fn heard(&self, node: u16, since: u64) -> Option<Who>
        ensures { result ≡ (facts self.now).heard node since };

    /// The configuration that it knows of a partition.
    fn config_of(&self, partition: u16) -> Option<&Config>
        ensures { option_copied result ≡ (facts self.now).config_of partition };

    /// Whether a reconfiguration of a partition is under way here.
    fn is_changing(&self, partition: u16) -> bool
        ensures { result ≡ (facts self.now).is_changing partition };
}
