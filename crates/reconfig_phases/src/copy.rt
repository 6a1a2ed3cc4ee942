ghost use Rattle.std.specs.Prelude.{◌≡◌};
ghost use Rattle.reconfig_phases.specs.Tasks.{IsTask};
ghost use Rattle.reconfig_phases.specs.Views.{Ends};
ghost use Rattle.unit_rules.specs.Phases.{copy_ends, copy_on};
ghost use Rattle.unit_rules.specs.Polls.{poll_of, waiting};

use crate::poll::Poll;
use crate::step::OriginLog;
use arrayvec::ArrayVec;
use fabric_terms::{Body, Message};
use ring_points::{Config, MAX_ARBITRATORS};
use std::marker::Model;
use unit_rules::{Next, Task};

/// Phase 2: the members take the log.
#[derive(Drop)]
pub struct CopyPhase {
    pub(crate) task: Task,
    pub(crate) config: Config,
    pub(crate) source: OriginLog,
    poll: Poll<()>,
}

impl Model for CopyPhase {
    ghost use Rattle.unit_rules.specs.Reconfigs.{CopyPhase};

    ghost Value = { CopyPhase };

    ghost view = { λ p. record { task = p.task; config = p.config; source = p.source; poll = p.poll } };

    ghost use Rattle.reconfig_phases.specs.Tasks.{IsTask};

    ghost invariant = { λ p. IsTask p.task };
}

impl CopyPhase {
    /// No member has the log yet.
    pub(crate) fn new(task: Task, config: Config, source: OriginLog) -> Self
        requires { IsTask task }
        ensures { result ≡ record { task = task; config = config; source = source; poll = poll_of config.members } }
    {
        let poll = Poll::new(config.members.as_slice());
        CopyPhase {
            task,
            config,
            source,
            poll,
        }
    }

    /// Counts an answer. It ends once the primary and a majority of the members have the log.
    #[tactic(auto, unfolding(unit_rules::specs::Phases::copy_ends))]
    pub(crate) fn count(&mut self, answer: &Message) -> Option<()>
        ensures ends { Ends (copy_ends answer.now.from.actor answer.now.body self.old) result self.new }
        ensures rest { self.new ≡ record self.old { poll = self.new.poll } }
    {
        if let Body::Adopted { .. } = &answer.body {
            self.poll.answer(answer.from.actor, ());
            if self.poll.has_answered(self.config.primary) && self.poll.is_carried() {
                return Some(());
            }
        }
        None
    }

    /// The members that have not answered.
    pub(crate) fn awaited(&self) -> ArrayVec<u16, MAX_ARBITRATORS>
        ensures { result.items ≡ waiting self.now.poll }
    {
        self.poll.waiting()
    }

    /// Hands itself back until the primary and a majority of the members have the log.
    pub fn on(self, answer: &Message) -> Result<Next, Self>
        ensures { result ≡ copy_on answer.now.from.actor answer.now.body self }
    {
        let mut phase = self;
        match phase.count(answer) {
            Some(()) => Ok(Next::Copied),
            None => Err(phase),
        }
    }
}
