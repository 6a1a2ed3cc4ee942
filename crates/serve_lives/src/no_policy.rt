ghost use Rattle.std.specs.Prelude.{[], Some};

use crate::returning::Returning;
use fabric_terms::Report;
use node_core::NodeCore;
use ring_node::Input;
use serve_turns::{Advice, Policy};

/// A policy that says nothing, as an arbitrator has it.
#[derive(Drop)]
pub struct NoPolicy {}

impl Policy for NoPolicy {
    ghost advised = { λ p. Some [] };

    fn advise(&mut self, _node: &NodeCore, _now: u64) -> Advice {
        Advice::Nothing
    }

    fn note(&mut self, _input: &Input, _told: &[Report], _now: u64) {}

    fn leave(&mut self, _now: u64) {}

    fn due(&self) -> u64 {
        u64::MAX
    }
}

impl Returning for NoPolicy {
    ghost pause = { λ p. 0 };

    fn join_pause(&self) -> u64 {
        0
    }
}
