ghost use Rattle.std.specs.Prelude.{◌≡◌, ◌≤◌, ◌==◌, find, length, option_map};
ghost use Rattle.std.specs.List.{list_any};
ghost use Rattle.arbiter_quorum.specs.Tallies.{has_answered};
ghost use Rattle.arbiter_quorum.specs.Votes.{has_majority, kept_count, may_win, no_votes, one_may_win, same_config};
ghost use Rattle.arbiter_quorum.specs.Votes.{unanswered, vote_noted, vote_verdict_of};

use crate::quorum::is_majority;
use crate::verdict::VoteVerdict;
use arrayvec::ArrayVec;
use ring_points::{Config, Epoch, MAX_ARBITRATORS, Members};
use std::marker::Model;

/// The configuration that an arbitrator kept. The default only fills places that hold no answer.
#[derive(Drop)]
struct Vote {
    arbitrator: u8,
    kept: Config,
}

impl Default for Vote {
    fn default() -> Self {
        Vote {
            arbitrator: 0,
            kept: Config {
                partition: 0,
                epoch: Epoch::default(),
                primary: 0,
                members: Members::new(),
            },
        }
    }
}

/// The configuration that each arbitrator kept of one epoch: its first answer. Contracts see it as the
/// record of that name, with the answers in the order in which they came.
#[derive(Drop)]
pub struct VoteTally {
    arbitrators: u8,
    answers: ArrayVec<Vote, MAX_ARBITRATORS>,
}

impl Model for VoteTally {
    ghost use Rattle.arbiter_quorum.specs.Counted.{Counted};
    ghost use Rattle.arbiter_quorum.specs.Votes.{VoteTally};

    ghost Value = { VoteTally };

    ghost use Rattle.arbiter_quorum.specs.Kept.{pairs};

    ghost view = { λ a. record { arbitrators = a.arbitrators; answers = pairs a.answers.items } };

    ghost invariant = { λ a. Counted a.arbitrators (pairs a.answers.items) };
}

fn same_config(c: &Config, d: &Config) -> bool
    ensures { result ≡ same_config c.now d.now }
{
    c.partition == d.partition
        && c.epoch == d.epoch
        && c.primary == d.primary
        && c.members.as_slice() == d.members.as_slice()
}

/// Whether one of these votes is of this arbitrator.
fn is_of_one(votes: &[Vote], arbitrator: u8) -> bool
    ensures { result ≡ list_any (λ vote. vote.arbitrator == arbitrator) votes.now }
{
    votes.iter().any(|vote| vote.arbitrator == arbitrator)
}

impl VoteTally {
    /// No answers yet, of at most 9 arbitrators.
    pub fn new(arbitrators: u8) -> Self
        requires { arbitrators ≤ MAX_ARBITRATORS }
        ensures { result ≡ no_votes arbitrators }
    {
        VoteTally {
            arbitrators,
            answers: ArrayVec::new(),
        }
    }

    /// Counts this answer, unless the arbitrator has answered already, and says what the answers amount
    /// to now. Arbitrators are numbered from 1.
    pub fn note(&mut self, arbitrator: u8, kept: &Config) -> VoteVerdict
        requires from { 1 ≤ arbitrator }
        requires to { arbitrator ≤ self.old.arbitrators }
        ensures noted { self.new ≡ vote_noted self.old arbitrator kept.now }
        ensures verdict { result ≡ vote_verdict_of self.new }
    {
        if !self.answered(arbitrator) {
            self.answers.push(Vote {
                arbitrator,
                kept: kept.copy(),
            });
        }
        self.verdict()
    }

    /// Whether an answer of this arbitrator is counted.
    pub fn answered(&self, arbitrator: u8) -> bool
        ensures { result ≡ has_answered arbitrator self.now.answers }
    {
        is_of_one(self.answers.as_slice(), arbitrator)
    }

    /// How many kept this configuration.
    fn kept_count(&self, kept: &Config) -> usize
        ensures count { result ≡ kept_count self.now kept.now }
        ensures few { result ≤ length self.now.answers }
    {
        self.answers
            .as_slice()
            .iter()
            .filter(|vote| same_config(kept, &vote.kept))
            .count()
    }

    fn unanswered(&self) -> usize
        ensures count { result ≡ unanswered self.now }
        ensures few { result ≤ MAX_ARBITRATORS }
    {
        usize::from(self.arbitrators).saturating_sub(self.answers.len())
    }

    fn has_majority(&self, kept: &Config) -> bool
        ensures { result ≡ has_majority self.now kept.now }
    {
        is_majority(self.arbitrators, self.kept_count(kept))
    }

    fn may_win(&self, kept: &Config) -> bool
        ensures { result ≡ may_win self.now kept.now }
    {
        is_majority(self.arbitrators, self.kept_count(kept) + self.unanswered())
    }

    fn one_of_these_may_win(&self, votes: &[Vote]) -> bool
        ensures { result ≡ list_any (λ vote. may_win self.now vote.kept) votes.now }
    {
        votes.iter().any(|vote| self.may_win(&vote.kept))
    }

    /// The first of these votes whose configuration a majority kept.
    fn first_with_majority<'a>(&self, votes: &'a [Vote]) -> Option<&'a Vote>
        ensures { option_map (λ vote. vote.now) result ≡ find (λ vote. has_majority self.now vote.kept) votes.now }
    {
        votes.iter().find(|vote| self.has_majority(&vote.kept))
    }

    fn one_may_win(&self) -> bool
        ensures { result ≡ one_may_win self.now }
    {
        is_majority(self.arbitrators, self.unanswered())
            || self.one_of_these_may_win(self.answers.as_slice())
    }

    fn verdict(&self) -> VoteVerdict
        ensures { result ≡ vote_verdict_of self.now }
    {
        match self.first_with_majority(self.answers.as_slice()) {
            Some(vote) => VoteVerdict::Decided(vote.kept.copy()),
            None if self.one_may_win() => VoteVerdict::Open,
            None => VoteVerdict::Split,
        }
    }
}
