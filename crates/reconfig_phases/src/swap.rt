ghost use Rattle.std.specs.Prelude.{◌≡◌, ◌∷◌, []};
ghost use Rattle.reconfig_phases.specs.Tasks.{IsTask};
ghost use Rattle.reconfig_phases.specs.Views.{Ends};
ghost use Rattle.unit_rules.specs.Phases.{swap_ends, swap_on};

use arrayvec::ArrayVec;
use fabric_terms::{Body, Message};
use ring_points::{Config, MAX_ARBITRATORS};
use std::marker::Model;
use unit_rules::{Next, Standing, Task};

/// Phase 0, of a swap: the primary of the old configuration promises, so that it takes no writes any more.
#[derive(Drop)]
pub struct SwapPhase {
    pub(crate) task: Task,
    pub(crate) old: Config,
    /// The member that is to follow it.
    pub(crate) primary: u16,
}

impl Model for SwapPhase {
    ghost use Rattle.unit_rules.specs.Reconfigs.{SwapPhase};

    ghost Value = { SwapPhase };

    ghost view = { λ p. record { task = p.task; old = p.old; primary = p.primary } };

    ghost use Rattle.reconfig_phases.specs.Tasks.{IsTask};

    ghost invariant = { λ p. IsTask p.task };
}

impl SwapPhase {
    /// With the old primary's promise it gives the standing of its log. Another answer changes nothing.
    #[tactic(auto, unfolding(unit_rules::specs::Phases::swap_ends))]
    pub(crate) fn standing(&self, answer: &Message) -> Option<Standing>
        ensures { Ends (swap_ends answer.now.from.actor answer.now.body self.now) result self.now }
    {
        match &answer.body {
            Body::Promised { at, last, .. } if answer.from.actor == self.old.primary => {
                Some(Standing {
                    at: *at,
                    last: *last,
                })
            }
            _ => None,
        }
    }

    /// The old primary, which has not answered.
    pub(crate) fn awaited(&self) -> ArrayVec<u16, MAX_ARBITRATORS>
        ensures { result.items ≡ self.now.old.primary ∷ [] }
    {
        let mut actors = ArrayVec::new();
        actors.push(self.old.primary);
        actors
    }

    /// Hands itself back until the old primary has promised.
    pub fn on(self, answer: &Message) -> Result<Next, Self>
        ensures { result ≡ swap_on answer.now.from.actor answer.now.body self }
    {
        match self.standing(answer) {
            Some(_) => Ok(Next::Moved),
            None => Err(self),
        }
    }
}
