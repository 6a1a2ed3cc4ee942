ghost use Rattle.std.specs.Prelude.{◌≡◌};
ghost use Rattle.failover_units.specs.Units.{nothing, greater, newest, noted, seen_at, has_member};

use ring_points::{Config, Epoch};

/// The greater of two epochs.
fn greater(a: Epoch, b: Epoch) -> Epoch
    ensures { result ≡ greater a b }
{
    if a < b { b } else { a }
}

/// Of two configurations the one of greater epoch, the known one at a tie.
fn newest(known: Option<Config>, config: &Config) -> Config
    ensures { result ≡ newest known config.now }
{
    match known {
        None => config.copy(),
        Some(known) => {
            if known.epoch < config.epoch {
                config.copy()
            } else {
                known
            }
        }
    }
}

/// What is known of a partition.
#[derive(Drop)]
pub struct KnownUnit {
    /// The noted configuration of greatest epoch.
    pub config: Option<Config>,
    /// The greatest epoch that was noted or seen: 0.0 where there was none.
    pub highest: Epoch,
}

impl KnownUnit {
    /// Nothing is known yet.
    pub fn nothing() -> Self
        ensures { result ≡ nothing }
    {
        KnownUnit {
            config: None,
            highest: Epoch {
                data_loss: 0,
                configuration: 0,
            },
        }
    }

    /// The same again.
    pub fn copy(&self) -> Self
        ensures { result ≡ self.now }
    {
        KnownUnit {
            config: self.config.as_ref().map(|config| config.copy()),
            highest: self.highest,
        }
    }

    /// With an epoch seen.
    pub fn seen(self, epoch: Epoch) -> Self
        ensures { result ≡ seen_at epoch self }
    {
        KnownUnit {
            config: self.config,
            highest: greater(self.highest, epoch),
        }
    }

    /// With a configuration noted.
    pub fn noted(self, config: &Config) -> Self
        ensures { result ≡ noted config.now self }
    {
        KnownUnit {
            config: Some(newest(self.config, config)),
            highest: greater(self.highest, config.epoch),
        }
    }

    /// Whether a node is a member of the known configuration.
    pub fn has_member(&self, node: u16) -> bool
        ensures { result ≡ has_member node self.now }
    {
        match &self.config {
            Some(config) => config.members.as_slice().contains(&node),
            None => false,
        }
    }
}
