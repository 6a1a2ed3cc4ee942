ghost use Rattle.std.specs.Prelude.{◌≡◌, ◌≤◌};
ghost use Rattle.fabric_steward.specs.Afterwards.{unit_commanded};
ghost use Rattle.fabric_steward.specs.Departures.{unit_moved};
ghost use Rattle.fabric_steward.specs.Noted.{unit_configured, unit_refused, unit_slowed, unit_superseded};
ghost use Rattle.fabric_steward.specs.Policies.{unit_watched};
ghost use Rattle.fabric_steward.specs.Watching.{unit_forgotten};

use crate::advice::Deed;
use crate::roll_call::RollCall;
use crate::times::{doubled, first_pause};
use fabric_terms::Reason;
use ring_points::{MAX_LEASE, Who};
use service_file::Declared;

/// A declared partition, as the policy keeps it whole.
#[derive(Clone, Copy)]
pub struct UnitWatch {
    pub partition: u16,
    pub replicas: u8,
    /// Whether it was configured since the node manages.
    pub learnt: bool,
    /// Whether the last answer was that there is no such partition.
    pub missing: bool,
    /// How many ticks lie between two commands at least.
    pub pause: u64,
    /// When it was commanded last.
    pub commanded: Option<u64>,
    /// The reconfiguration of the policy that is under way.
    pub deed: Option<Deed>,
    /// The instance of the primary's node that was heard first since it was configured.
    pub served_by: Option<Who>,
    /// Since when the primary is not up.
    pub down: Option<u64>,
    /// Since when too few members are up.
    pub few: Option<u64>,
    /// Which members were heard since it was configured.
    pub roll: RollCall,
    /// Since when a member is there that may have missed the configuration.
    pub missed: Option<u64>,
}

impl UnitWatch {
    /// Nothing is known of it yet.
    pub fn new(lease: u64, declared: Declared) -> UnitWatch
        ensures { result ≡ unit_watched lease declared }
    {
        UnitWatch {
            partition: declared.partition,
            replicas: declared.replicas,
            learnt: false,
            missing: false,
            pause: first_pause(lease),
            commanded: None,
            deed: None,
            served_by: None,
            down: None,
            few: None,
            roll: RollCall::NotBegun,
            missed: None,
        }
    }

    /// Everything is forgotten but when it was commanded last.
    pub fn forgotten(self, lease: u64) -> UnitWatch
        ensures { result ≡ unit_forgotten lease self }
    {
        UnitWatch {
            learnt: false,
            missing: false,
            pause: first_pause(lease),
            deed: None,
            served_by: None,
            down: None,
            few: None,
            roll: RollCall::NotBegun,
            missed: None,
            ..self
        }
    }

    /// A reconfiguration of this partition is commanded.
    pub fn commanded(self, partition: u16, deed: Deed, now: u64) -> UnitWatch
        ensures { result ≡ unit_commanded partition deed now self }
    {
        if self.partition == partition {
            UnitWatch {
                commanded: Some(now),
                deed: Some(deed),
                ..self
            }
        } else {
            self
        }
    }

    /// A node that leaves commands that this partition is placed anew, or that its primary moves.
    pub fn moved(self, partition: u16, now: u64) -> UnitWatch
        ensures { result ≡ unit_moved partition now self }
    {
        if self.partition == partition {
            UnitWatch {
                commanded: Some(now),
                ..self
            }
        } else {
            self
        }
    }

    /// It is configured.
    pub fn configured(self, lease: u64) -> UnitWatch
        ensures { result ≡ unit_configured lease self }
    {
        UnitWatch {
            learnt: true,
            missing: false,
            pause: first_pause(lease),
            served_by: None,
            down: None,
            few: None,
            roll: RollCall::NotBegun,
            missed: None,
            ..self
        }
    }

    /// Its pause is doubled.
    pub fn slowed(self, lease: u64) -> UnitWatch
        requires { lease ≤ MAX_LEASE }
        ensures { result ≡ unit_slowed lease self }
    {
        UnitWatch {
            pause: doubled(lease, self.pause),
            ..self
        }
    }

    /// A reconfiguration met a later epoch.
    pub fn superseded(self, lease: u64) -> UnitWatch
        requires { lease ≤ MAX_LEASE }
        ensures { result ≡ unit_superseded lease self }
    {
        if self.learnt {
            self.slowed(lease)
        } else {
            self
        }
    }

    /// A create or a heal is refused.
    pub fn refused(self, lease: u64, reason: Reason) -> UnitWatch
        requires { lease ≤ MAX_LEASE }
        ensures { result ≡ unit_refused lease reason self }
    {
        match reason {
            Reason::NoUnit => UnitWatch {
                missing: true,
                ..self
            },
            Reason::Exists => UnitWatch {
                missing: false,
                ..self
            },
            _ => self.slowed(lease),
        }
    }
}
