ghost use Rattle.std.specs.Prelude.{◌≡◌};
ghost use Rattle.reconfig_phases.specs.Tasks.{IsTask};
ghost use Rattle.reconfig_phases.specs.Views.{Ends};
ghost use Rattle.unit_rules.specs.Phases.{done_ends, done_on};
ghost use Rattle.unit_rules.specs.Polls.{arbiters_to, poll_of, waiting};

use crate::arbiters::arbiters;
use crate::poll::Poll;
use arrayvec::ArrayVec;
use fabric_terms::{Body, Message};
use ring_points::{Config, MAX_ARBITRATORS};
use std::marker::Model;
use unit_rules::{Next, Task};

/// Phase 3: the arbitrators keep the configuration as done.
#[derive(Drop)]
pub struct DonePhase {
    pub(crate) task: Task,
    pub(crate) config: Config,
    poll: Poll<()>,
}

impl Model for DonePhase {
    ghost use Rattle.unit_rules.specs.Reconfigs.{DonePhase};

    ghost Value = { DonePhase };

    ghost view = { λ p. record { task = p.task; config = p.config; poll = p.poll } };

    ghost use Rattle.reconfig_phases.specs.Tasks.{IsTask};

    ghost invariant = { λ p. IsTask p.task };
}

impl DonePhase {
    /// No arbitrator keeps it yet.
    pub(crate) fn new(task: Task, config: Config) -> Self
        requires { IsTask task }
        ensures { result ≡ record { task = task; config = config; poll = poll_of (arbiters_to task.arbitrators) } }
    {
        DonePhase {
            task,
            config,
            poll: Poll::new(arbiters(task.arbitrators).as_slice()),
        }
    }

    /// Counts an answer. It ends once a majority of the arbitrators keeps the configuration as done.
    #[tactic(auto, unfolding(unit_rules::specs::Phases::done_ends))]
    pub(crate) fn count(&mut self, answer: &Message) -> Option<()>
        ensures ends { Ends (done_ends answer.now.from.actor answer.now.body self.old) result self.new }
        ensures rest { self.new ≡ record self.old { poll = self.new.poll } }
    {
        if let Body::DoneKept { .. } = &answer.body {
            self.poll.answer(answer.from.actor, ());
            if self.poll.is_carried() {
                return Some(());
            }
        }
        None
    }

    /// The arbitrators that have not answered.
    pub(crate) fn awaited(&self) -> ArrayVec<u16, MAX_ARBITRATORS>
        ensures { result.items ≡ waiting self.now.poll }
    {
        self.poll.waiting()
    }

    /// Hands itself back until a majority of the arbitrators keeps the configuration as done.
    pub fn on(self, answer: &Message) -> Result<Next, Self>
        ensures { result ≡ done_on answer.now.from.actor answer.now.body self }
    {
        let mut phase = self;
        match phase.count(answer) {
            Some(()) => Ok(Next::Stored),
            None => Err(phase),
        }
    }
}
