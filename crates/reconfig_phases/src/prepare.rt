ghost use Rattle.std.specs.Prelude.{◌≡◌};
ghost use Rattle.reconfig_phases.specs.Tasks.{IsTask};
ghost use Rattle.reconfig_phases.specs.Views.{Ends};
ghost use Rattle.unit_rules.specs.Phases.{prepare_ends, prepare_on};
ghost use Rattle.unit_rules.specs.Polls.{arbiters_to, poll_of, waiting};

use crate::arbiters::arbiters;
use crate::choices::{copy_of, highest_done};
use crate::poll::Poll;
use arrayvec::ArrayVec;
use fabric_terms::{Body, Message};
use ring_points::{Config, MAX_ARBITRATORS};
use std::marker::Model;
use unit_rules::{Next, Task};

/// The arbitrators prepare the epoch, and say what was done last.
#[derive(Drop)]
pub struct PreparePhase {
    pub(crate) task: Task,
    poll: Poll<Option<Config>>,
}

impl Model for PreparePhase {
    ghost use Rattle.unit_rules.specs.Reconfigs.{PreparePhase};

    ghost Value = { PreparePhase };

    ghost view = { λ p. record { task = p.task; poll = p.poll } };

    ghost use Rattle.reconfig_phases.specs.Tasks.{IsTask};

    ghost invariant = { λ p. IsTask p.task };
}

impl PreparePhase {
    /// Nobody has answered yet.
    pub(crate) fn new(task: Task) -> Self
        requires { IsTask task }
        ensures { result ≡ record { task = task; poll = poll_of (arbiters_to task.arbitrators) } }
    {
        PreparePhase {
            task,
            poll: Poll::new(arbiters(task.arbitrators).as_slice()),
        }
    }

    /// Counts an answer. Once a majority of the arbitrators has prepared the epoch, it gives the configuration of
    /// highest epoch that they carried.
    #[tactic(auto, unfolding(unit_rules::specs::Phases::prepare_ends))]
    pub(crate) fn count(&mut self, answer: &Message) -> Option<Option<Config>>
        ensures ends { Ends (prepare_ends answer.now.from.actor answer.now.body self.old) result self.new }
        ensures rest { self.new ≡ record self.old { poll = self.new.poll } }
    {
        if let Body::Prepared { done, .. } = &answer.body {
            self.poll.answer(answer.from.actor, copy_of(done));
            if self.poll.is_carried() {
                return Some(highest_done(self.poll.entries()));
            }
        }
        None
    }

    /// Those that have not answered.
    pub(crate) fn awaited(&self) -> ArrayVec<u16, MAX_ARBITRATORS>
        ensures { result.items ≡ waiting self.now.poll }
    {
        self.poll.waiting()
    }

    /// Hands itself back until a majority of the arbitrators has prepared the epoch. Then it gives the configuration of
    /// highest epoch that they carried, if there is one.
    pub fn on(self, answer: &Message) -> Result<Next, Self>
        ensures { result ≡ prepare_on answer.now.from.actor answer.now.body self }
    {
        let mut phase = self;
        match phase.count(answer) {
            Some(old) => Ok(Next::Prepared(old)),
            None => Err(phase),
        }
    }
}
