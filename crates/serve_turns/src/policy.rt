ghost use Rattle.std.specs.Prelude.{◌≡◌, List, Option};
ghost use Rattle.fabric_terms.specs.declared.command.Command.{Command as CommandOf};
ghost use Rattle.serve_turns.specs.Policies.{Advises};

use fabric_terms::{Command, Report};
use node_core::NodeCore;
use ring_node::Input;

/// What a policy says in a turn.
#[derive(Drop)]
pub enum Advice {
    /// The node is to do this.
    Say(Command),
    /// There is nothing to do.
    Nothing,
    /// The node was told to leave, and what it could give away is given away: its process ends.
    Gone,
}

/// What keeps a cluster whole: it sees a node and its steps, and says what the node is to do.
pub trait Policy {
    /// The commands that it has said, the newest first, if it tells that.
    ghost advised: { Self → Option (List CommandOf) };

    /// What the node is to do in the turn of this reading, in ticks.
    fn advise(&mut self, node: &NodeCore, now: u64) -> Advice
        ensures { Advises (advised self.old) result (advised self.new) };

    /// A step of the node has come, in the turn of this reading.
    fn note(&mut self, input: &Input, told: &[Report], now: u64)
        ensures { advised self.new ≡ advised self.old };

    /// The node was told to leave.
    fn leave(&mut self, now: u64)
        ensures { advised self.new ≡ advised self.old };

    /// The reading at which it wants the next turn at the latest.
    fn due(&self) -> u64;
}
