use crate::field::Field;
use ring_points::{
    MAX_DOMAINS, MAX_DRIFT, MAX_GRAIN, MAX_LEASE, MAX_NODE_NUMBER, MAX_ROUNDS, MIN_LEASE,
};

/// A field of a whole number, with the least and the greatest value that it may have.
#[derive(Clone, Copy)]
pub struct Limits {
    pub field: Field,
    pub least: u64,
    pub greatest: u64,
}

/// In ticks.
pub const LEASE: Limits = Limits {
    field: Field::Lease,
    least: MIN_LEASE,
    greatest: MAX_LEASE,
};

/// In ticks.
pub const ANSWER: Limits = Limits {
    field: Field::Answer,
    least: 1,
    greatest: MAX_LEASE,
};

/// Per mille of each span.
pub const DRIFT: Limits = Limits {
    field: Field::Drift,
    least: 0,
    greatest: MAX_DRIFT,
};

/// In ticks.
pub const GRAIN: Limits = Limits {
    field: Field::Grain,
    least: 0,
    greatest: MAX_GRAIN,
};

/// In nodes on each side.
pub const NEAR: Limits = Limits {
    field: Field::Near,
    least: 0,
    greatest: 4,
};

/// The nodes on each side where the line does not say.
pub const DEFAULT_NEAR: u64 = 0;

pub const ROUNDS: Limits = Limits {
    field: Field::Rounds,
    least: 1,
    greatest: MAX_ROUNDS as u64,
};

/// The rounds where the line does not say.
pub const DEFAULT_ROUNDS: u64 = 1;

pub const NODE: Limits = Limits {
    field: Field::Node,
    least: 1,
    greatest: MAX_NODE_NUMBER as u64,
};

pub const DOMAIN: Limits = Limits {
    field: Field::Domain,
    least: 1,
    greatest: MAX_DOMAINS as u64,
};

/// The domain of a node whose entry names none.
pub const DEFAULT_DOMAIN: u64 = 1;

/// In ticks.
pub const LONGEST: Limits = Limits {
    field: Field::Longest,
    least: MIN_LEASE,
    greatest: MAX_LEASE,
};
