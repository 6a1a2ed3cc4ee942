ghost use Rattle.std.specs.Prelude.{◌≡◌, OnErr, OnOk, nat_lt, true};
ghost use Rattle.join_phases.specs.Phases.{is_routing};
ghost use Rattle.ring_node.specs.Nodes.{Rings, RingsBroken, with_token};
ghost use Rattle.ring_rules.specs.Deeds.{undo_freeze, undone};
ghost use Rattle.token_core.specs.Tokens.{last_number};
ghost use Rattle.token_core.specs.Calls.{freeze_call, outcome};

use crate::node::RingNode;
use join_phases::Phase;
use ring_points::RangeSet;
use token_core::TokenRefusal;

/// A row needs a number past the last.
#[derive(Clone, Copy, Debug, PartialEq, Eq)]
pub(crate) struct Spent;

impl RingNode {
    /// A freeze for the slot, if there is one, is undone.
    pub(crate) fn undo(&mut self, i: usize) -> Result<(), Spent>
        ensures ok { OnOk result (Rings (λ c. undo_freeze i) self.old self.new) }
        ensures err { OnErr result (RingsBroken (λ c. undo_freeze i) self.old self.new) }
        ensures token { OnOk result (self.new ≡ with_token (undone i self.old.ring.token) self.old) }
        ensures kept { OnErr result (self.new ≡ self.old) }
        ensures spent { OnErr result (nat_lt last_number (undone i self.old.ring.token).version ≡ true) }
    {
        if self.token.frozen_for() != Some(i) {
            return Ok(());
        }
        match self.token.undo() {
            Ok(()) => Ok(()),
            Err(_) => Err(Spent),
        }
    }

    /// Freezes the owned points of a part for the slot, where the node routes.
    pub(crate) fn freeze(&mut self, part: &RangeSet, i: usize) -> Result<(), TokenRefusal>
        requires { is_routing self.old.ring.phase ≡ true }
        ensures outcome { outcome result self.new.ring.token ≡ freeze_call self.old.ring.token part.now i }
        ensures kept { self.new ≡ with_token self.new.ring.token self.old }
        ensures err { OnErr result (self.new ≡ self.old) }
    {
        let Phase::Routing(routing) = &self.phase else {
            return Err(TokenRefusal::NotReady);
        };
        self.token.freeze(routing, part, i)
    }
}
