//! The law of the ring: no two nodes ever hold one ring point, on a machine that allows more than a node
//! does.
//!
//! The machine has all instances that ever were, all frames ever sent, the tables of the arbitrators, and
//! where each point is, which no instance is told. An instance below its fence does one deed at a time:
//! `specs/Guards.antt` says when it may, `specs/Effects.antt` what that leaves. Frames come at any time, in
//! any order, once, often or never. It stands on points and clocks alone. Whoever shows that each row of a
//! node's rules is a list of deeds has these laws of the rules: `proofs/DeedSteps.antt` has what one deed
//! keeps, `proofs/Standing.antt` a world with its invariant.
#![tactic(auto)]

mod laws;

pub use laws::{
    arbitrators_exclude, each_moves_from_its_place, flights_are_numbered_once, invariant_holds,
    one_heir_at_most, owns_its_places, ring_is_safe, taken_after_leave,
};
