ghost use Rattle.std.specs.Prelude.{◌≡◌, IfSome};
ghost use Rattle.reconfig_phases.specs.Tasks.{IsTask};
ghost use Rattle.reconfig_phases.specs.Views.{Ends};
ghost use Rattle.unit_rules.specs.Phases.{activate_ends, activate_on};
ghost use Rattle.unit_rules.specs.Polls.{poll_of, waiting};

use crate::poll::Poll;
use arrayvec::ArrayVec;
use fabric_terms::{Body, Message};
use ring_points::{Config, MAX_ARBITRATORS};
use std::marker::Model;
use unit_rules::{Next, Task};

/// Phase 4: the members take their roles.
#[derive(Drop)]
pub struct ActivatePhase {
    pub(crate) task: Task,
    pub(crate) config: Config,
    poll: Poll<()>,
}

impl Model for ActivatePhase {
    ghost use Rattle.unit_rules.specs.Reconfigs.{ActivatePhase};

    ghost Value = { ActivatePhase };

    ghost view = { λ p. record { task = p.task; config = p.config; poll = p.poll } };

    ghost use Rattle.reconfig_phases.specs.Tasks.{IsTask};

    ghost invariant = { λ p. IsTask p.task };
}

impl ActivatePhase {
    /// No member has its role yet.
    pub(crate) fn new(task: Task, config: Config) -> Self
        requires { IsTask task }
        ensures { result ≡ record { task = task; config = config; poll = poll_of config.members } }
    {
        let poll = Poll::new(config.members.as_slice());
        ActivatePhase { task, config, poll }
    }

    /// Counts an answer. It ends once the primary and a majority of the members have their roles, and is then left as
    /// it was.
    #[tactic(auto, unfolding(unit_rules::specs::Phases::activate_ends))]
    pub(crate) fn count(&mut self, answer: &Message) -> Option<()>
        ensures ends { Ends (activate_ends answer.now.from.actor answer.now.body self.old) result self.new }
        ensures same { IfSome result (λ _. self.new ≡ self.old) }
        ensures rest { self.new ≡ record self.old { poll = self.new.poll } }
    {
        if let Body::Activated { .. } = &answer.body {
            let mut poll = self.poll.copy();
            poll.answer(answer.from.actor, ());
            if poll.has_answered(self.config.primary) && poll.is_carried() {
                return Some(());
            }
            self.poll = poll;
        }
        None
    }

    /// The members that have not answered.
    pub(crate) fn awaited(&self) -> ArrayVec<u16, MAX_ARBITRATORS>
        ensures { result.items ≡ waiting self.now.poll }
    {
        self.poll.waiting()
    }

    /// Hands itself back until the primary and a majority of the members have their roles. Then it gives the
    /// configuration.
    pub fn on(self, answer: &Message) -> Result<Next, Self>
        ensures { result ≡ activate_on answer.now.from.actor answer.now.body self }
    {
        let mut phase = self;
        match phase.count(answer) {
            Some(()) => Ok(Next::Activated(phase.config)),
            None => Err(phase),
        }
    }
}
