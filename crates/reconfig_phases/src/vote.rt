ghost use Rattle.std.specs.Prelude.{◌≡◌, ◌≤◌};
ghost use Rattle.reconfig_phases.specs.Tasks.{IsTask};
ghost use Rattle.reconfig_phases.specs.Views.{Ends};
ghost use Rattle.arbiter_quorum.specs.Votes.{no_votes};
ghost use Rattle.unit_rules.specs.Phases.{vote_ends, vote_on, voted_with};
ghost use Rattle.unit_rules.specs.Questions.{awaited};
ghost use Rattle.unit_rules.specs.Reconfigs.{Decide};

use crate::arbiters::arbiter_number;
use crate::step::OriginLog;
use arbiter_quorum::{VoteTally, VoteVerdict};
use arrayvec::ArrayVec;
use fabric_terms::{Body, Message};
use ring_points::{ARBITRATORS, Config, MAX_ARBITRATORS};
use std::marker::Model;
use unit_rules::{Next, Task};

/// Decide: the arbitrators vote for the proposed configuration.
#[derive(Drop)]
pub struct VotePhase {
    pub(crate) task: Task,
    pub(crate) config: Config,
    pub(crate) source: OriginLog,
    votes: VoteTally,
}

impl Model for VotePhase {
    ghost use Rattle.std.specs.Prelude.{◌≡◌};
    ghost use Rattle.unit_rules.specs.Reconfigs.{VotePhase};

    ghost Value = { VotePhase };

    ghost view = { λ p. record { task = p.task; config = p.config; source = p.source; votes = p.votes } };

    ghost use Rattle.reconfig_phases.specs.Tasks.{IsTask};

    ghost invariant = { λ p. IsTask p.task × (p.votes.arbitrators ≡ p.task.arbitrators) };
}

impl VotePhase {
    /// Nobody has voted yet.
    pub(crate) fn new(task: Task, config: Config, source: OriginLog) -> Self
        requires { IsTask task }
        ensures { result ≡ record { task = task; config = config; source = source; votes = no_votes task.arbitrators } }
    {
        VotePhase {
            task,
            config,
            source,
            votes: VoteTally::new(task.arbitrators),
        }
    }

    /// Counts the vote of an arbitrator. Once a configuration has a majority it gives that one, and nothing once none
    /// can have one any more.
    fn voted(&mut self, arbitrator: u8, kept: &Config) -> Option<Option<Config>>
        requires from { 1 ≤ arbitrator }
        requires to { arbitrator ≤ self.old.votes.arbitrators }
        ensures ends { Ends (voted_with arbitrator kept.now self.old) result self.new }
        ensures rest { self.new ≡ record self.old { votes = self.new.votes } }
    {
        match self.votes.note(arbitrator, kept) {
            VoteVerdict::Open => None,
            VoteVerdict::Decided(config) => Some(Some(config)),
            VoteVerdict::Split => Some(None),
        }
    }

    /// Counts an answer. Once a configuration has a majority it gives that one, and nothing once none can have one any
    /// more.
    #[tactic(auto, unfolding(unit_rules::specs::Phases::vote_ends))]
    pub(crate) fn count(&mut self, answer: &Message) -> Option<Option<Config>>
        ensures ends { Ends (vote_ends answer.now.from.actor answer.now.body self.old) result self.new }
        ensures rest { self.new ≡ record self.old { votes = self.new.votes } }
    {
        match &answer.body {
            Body::Voted { kept, .. } => {
                let arbitrator = arbiter_number(answer.from.actor, self.task.arbitrators)?;
                self.voted(arbitrator, kept)
            }
            _ => None,
        }
    }

    /// The arbitrators that have not voted.
    #[tactic(auto, using(crate::proofs::Voted::waits, crate::proofs::Voted::waits_not))]
    pub(crate) fn awaited(&self) -> ArrayVec<u16, MAX_ARBITRATORS>
        ensures { result.items ≡ awaited (Decide self.now) }
    {
        let mut actors = ArrayVec::new();
        for arbitrator in 0..self.task.arbitrators {
            if !self.votes.answered(arbitrator + 1) {
                actors.push(ARBITRATORS + 1 + u16::from(arbitrator));
            }
        }
        actors
    }

    /// Hands itself back until a majority of the arbitrators keeps one configuration, which it then gives, or until
    /// none can have a majority any more.
    pub fn on(self, answer: &Message) -> Result<Next, Self>
        ensures { result ≡ vote_on answer.now.from.actor answer.now.body self }
    {
        let mut phase = self;
        match phase.count(answer) {
            Some(Some(config)) => Ok(Next::Decided(config)),
            Some(None) => Ok(Next::Split),
            None => Err(phase),
        }
    }
}
