use crate::reconfig::Reconfig;
use failover_units::UnitRefusal;
use ring_points::{Config, Epoch};
use std::marker::Model;

/// The log that the members are to have: that of the origin, up to its last entry.
#[derive(Clone, Copy)]
pub(crate) struct OriginLog {
    pub(crate) origin: u16,
    pub(crate) last: u32,
}

impl Model for OriginLog {
    ghost use Rattle.unit_rules.specs.Reconfigs.{OriginLog};

    ghost Value = { OriginLog };

    ghost view = { λ s. record { origin = s.origin; last = s.last } };

    ghost inverse = { λ s. record { origin = s.origin; last = s.last } };
}

/// How a reconfiguration goes on after an answer, with what stays of it.
#[derive(Drop)]
pub enum Step {
    /// It goes on, in the same phase or the next.
    Stay(Reconfig),
    /// The configuration is active.
    Finished(Config),
    /// An epoch that is not below its own ends it.
    Superseded(Epoch),
    /// What was done before forbids it, or too few fault domains have an up node.
    Refused(UnitRefusal),
}

/// How it is with a reconfiguration after an answer.
#[derive(Drop)]
pub enum Progress {
    /// It goes on, in the same phase or the next.
    Stays,
    /// It is over: the configuration is active.
    Finished(Config),
    /// It is over: an epoch that is not below its own ends it.
    Superseded(Epoch),
    /// It is over: what was done before forbids it, or too few fault domains have an up node.
    Refused(UnitRefusal),
}
