ghost use Rattle.std.specs.Prelude.{◌≡◌, ◌≤◌, length};
ghost use Rattle.reconfig_phases.specs.Tasks.{IsTask};
ghost use Rattle.reconfig_phases.specs.Views.{Ends};
ghost use Rattle.unit_rules.specs.Phases.{chosen_of, furthest_or, primary_by, promise_ends, promise_on, promised_with};
ghost use Rattle.unit_rules.specs.Polls.{waiting};
ghost use Rattle.unit_rules.specs.Transitions.{asks_promises};

use crate::choices::{furthest, furthest_among};
use crate::poll::Poll;
use crate::step::OriginLog;
use arrayvec::ArrayVec;
use fabric_terms::{Body, Message};
use ring_points::{Config, MAX_ARBITRATORS, Members};
use std::marker::Model;
use unit_rules::{Kind, Next, Standing, Task};

/// What is proposed, and with whose log.
#[derive(Drop)]
pub(crate) struct Choice {
    pub(crate) config: Config,
    pub(crate) source: OriginLog,
}

impl Model for Choice {
    ghost use Rattle.unit_rules.specs.Phases.{Choice};

    ghost Value = { Choice };

    ghost view = { λ c. record { config = c.config; source = c.source } };
}

/// Phase 1: a majority of the asked promises. Then the members are proposed.
#[derive(Drop)]
pub struct PromisePhase {
    pub(crate) task: Task,
    members: Members,
    /// The first of the members as they were placed, or the node that was named.
    first: u16,
    poll: Poll<Standing>,
}

impl Model for PromisePhase {
    ghost use Rattle.unit_rules.specs.Reconfigs.{PromisePhase};

    ghost Value = { PromisePhase };

    ghost view = { λ p. record { task = p.task; members = p.members; first = p.first; poll = p.poll } };

    ghost use Rattle.reconfig_phases.specs.Tasks.{IsTask};

    ghost invariant = { λ p. IsTask p.task };
}

/// The replica that is furthest, or the first where there is none.
fn furthest_or(first: u16, furthest: Option<(u16, Standing)>) -> u16
    ensures { result ≡ furthest_or first furthest }
{
    match furthest {
        Some(replica) => replica.0,
        None => first,
    }
}

impl PromisePhase {
    /// Nobody has promised yet.
    pub(crate) fn new(task: Task, asked: &[u16], members: Members, first: u16) -> Self
        requires task { IsTask task }
        requires asked { length asked.now ≤ MAX_ARBITRATORS }
        ensures { result ≡ asks_promises task asked.now members first }
    {
        PromisePhase {
            task,
            members,
            first,
            poll: Poll::new(asked),
        }
    }

    /// Of a heal the furthest of the new members that answered, or else the first that was placed; else the node that
    /// is named.
    fn primary(&self) -> u16
        ensures { result ≡ primary_by self.now.task.kind self.now }
    {
        match self.task.kind {
            Kind::Heal(_) => {
                let furthest = furthest_among(self.poll.entries(), self.members.as_slice());
                furthest_or(self.first, furthest)
            }
            _ => self.first,
        }
    }

    /// What a majority of the asked chooses: the furthest of them is the origin of the log.
    fn choice(&self) -> Option<Choice>
        ensures { Ends (chosen_of self.now) result self.now }
    {
        if !self.poll.is_carried() {
            return None;
        }
        let (origin, standing) = furthest(self.poll.entries())?;
        Some(Choice {
            config: Config {
                partition: self.task.partition,
                epoch: self.task.epoch,
                primary: self.primary(),
                members: self.members.copy(),
            },
            source: OriginLog {
                origin,
                last: standing.last,
            },
        })
    }

    /// Counts a promise. With a majority of the asked it gives what they choose.
    pub(crate) fn promised(&mut self, actor: u16, standing: Standing) -> Option<Choice>
        ensures ends { Ends (promised_with actor standing self.old) result self.new }
        ensures rest { self.new ≡ record self.old { poll = self.new.poll } }
    {
        self.poll.answer(actor, standing);
        self.choice()
    }

    /// Counts an answer. With a majority of the asked it gives what they choose.
    #[tactic(auto, unfolding(unit_rules::specs::Phases::promise_ends))]
    pub(crate) fn count(&mut self, answer: &Message) -> Option<Choice>
        ensures ends { Ends (promise_ends answer.now.from.actor answer.now.body self.old) result self.new }
        ensures rest { self.new ≡ record self.old { poll = self.new.poll } }
    {
        match &answer.body {
            Body::Promised { at, last, .. } => {
                let standing = Standing {
                    at: *at,
                    last: *last,
                };
                self.promised(answer.from.actor, standing)
            }
            _ => None,
        }
    }

    /// Those that have not promised.
    pub(crate) fn awaited(&self) -> ArrayVec<u16, MAX_ARBITRATORS>
        ensures { result.items ≡ waiting self.now.poll }
    {
        self.poll.waiting()
    }

    /// Hands itself back until a majority of the asked has promised. Then it gives the configuration to propose, and
    /// the replica that is furthest with its last entry.
    pub fn on(self, answer: &Message) -> Result<Next, Self>
        ensures { result ≡ promise_on answer.now.from.actor answer.now.body self }
    {
        let mut phase = self;
        match phase.count(answer) {
            Some(choice) => Ok(Next::Chosen {
                config: choice.config,
                origin: choice.source.origin,
                last: choice.source.last,
            }),
            None => Err(phase),
        }
    }
}
