ghost use Rattle.std.specs.Prelude.{◌≡◌, ◌≤◌, length};
ghost use Rattle.std.specs.List.{list_any};
ghost use Rattle.arbiter_quorum.specs.Tallies.{has_answered, is_majority};
ghost use Rattle.heir_rounds.specs.Rounds.{gone_on, has_majority, is_won, kept_count, may_win, no_rounds, one_may_win};
ghost use Rattle.heir_rounds.specs.Rounds.{round_counted, round_noted, round_verdict, round_verdict_of, unanswered};

use crate::verdict::RoundVerdict;
use arbiter_quorum::is_majority;
use arrayvec::ArrayVec;
use ring_points::{MAX_ARBITRATORS, Who};
use std::marker::Model;

/// Whom each arbitrator keeps of the present round about one victim: its first answer. Contracts see it as
/// the record of that name, with the answers in the order in which they came.
#[derive(Drop)]
pub struct RoundTally {
    me: Who,
    arbitrators: u8,
    limit: u8,
    round: u8,
    answers: ArrayVec<(u8, Who), MAX_ARBITRATORS>,
}

impl Model for RoundTally {
    ghost use Rattle.arbiter_quorum.specs.Counted.{Counted};
    ghost use Rattle.heir_rounds.specs.Rounds.{RoundTally};

    ghost Value = { RoundTally };

    ghost view = { λ a. record {
      me = a.me;
      arbitrators = a.arbitrators;
      limit = a.limit;
      round = a.round;
      answers = a.answers.items;
    } };

    ghost invariant = { λ a. Counted a.arbitrators a.answers.items };
}

impl RoundTally {
    /// The first round, without answers, of at most 9 arbitrators.
    pub fn new(me: Who, arbitrators: u8, limit: u8) -> Self
        requires { arbitrators ≤ MAX_ARBITRATORS }
        ensures { result ≡ no_rounds me arbitrators limit }
    {
        RoundTally {
            me,
            arbitrators,
            limit,
            round: 1,
            answers: ArrayVec::new(),
        }
    }

    /// The present round.
    pub fn round(&self) -> u8
        ensures { result ≡ self.now.round }
    {
        self.round
    }

    /// Whether an answer of this arbitrator to this round is counted.
    pub fn answered(&self, arbitrator: u8) -> bool
        ensures { result ≡ has_answered arbitrator self.now.answers }
    {
        self.answers
            .as_slice()
            .iter()
            .any(|answer| answer.0 == arbitrator)
    }

    /// Counts whom this arbitrator keeps of this round, unless it has answered already or the round is another
    /// than the present one, and says what the answers amount to now. Where nobody can get a majority of the
    /// present round and it is not the last, the next one begins. Arbitrators are numbered from 1.
    pub fn note(&mut self, round: u8, arbitrator: u8, kept: Who) -> RoundVerdict
        requires from { 1 ≤ arbitrator }
        requires to { arbitrator ≤ self.old.arbitrators }
        ensures noted { self.new ≡ round_noted self.old round arbitrator kept }
        ensures verdict { result ≡ round_verdict self.old round arbitrator kept }
    {
        self.count(round, arbitrator, kept);
        let verdict = self.verdict();
        self.go_on(verdict);
        verdict
    }

    /// Counts the answer, where it is the arbitrator's first to the present round.
    fn count(&mut self, round: u8, arbitrator: u8, kept: Who)
        requires from { 1 ≤ arbitrator }
        requires to { arbitrator ≤ self.old.arbitrators }
        ensures { self.new ≡ round_counted self.old round arbitrator kept }
    {
        if round == self.round && !self.answered(arbitrator) {
            self.answers.push((arbitrator, kept));
        }
    }

    /// Begins the round that the verdict names.
    fn go_on(&mut self, verdict: RoundVerdict)
        ensures { self.new ≡ gone_on self.old verdict }
    {
        if let RoundVerdict::Next(next) = verdict {
            self.round = next;
            self.answers = ArrayVec::new();
        }
    }

    /// How many keep it.
    fn kept_count(&self, who: Who) -> usize
        ensures count { result ≡ kept_count self.now who }
        ensures few { result ≤ length self.now.answers }
    {
        self.answers
            .as_slice()
            .iter()
            .filter(|answer| answer.1 == who)
            .count()
    }

    fn unanswered(&self) -> usize
        ensures count { result ≡ unanswered self.now }
        ensures few { result ≤ MAX_ARBITRATORS }
    {
        usize::from(self.arbitrators).saturating_sub(self.answers.len())
    }

    fn has_majority(&self, who: Who) -> bool
        ensures { result ≡ has_majority self.now who }
    {
        is_majority(self.arbitrators, self.kept_count(who))
    }

    fn may_win(&self, who: Who) -> bool
        ensures { result ≡ may_win self.now who }
    {
        is_majority(self.arbitrators, self.kept_count(who) + self.unanswered())
    }

    /// Whether a majority keeps one.
    fn is_won(&self) -> bool
        ensures { result ≡ is_won self.now }
    {
        self.answers
            .as_slice()
            .iter()
            .any(|answer| self.has_majority(answer.1))
    }

    /// Whether one can still get a majority.
    fn one_may_win(&self) -> bool
        ensures { result ≡ one_may_win self.now }
    {
        self.another_may_win() || self.one_of_these_may_win()
    }

    /// Whether one that nobody keeps can still get a majority.
    fn another_may_win(&self) -> bool
        ensures { result ≡ is_majority self.now.arbitrators (unanswered self.now) }
    {
        is_majority(self.arbitrators, self.unanswered())
    }

    /// Whether one of those that are kept can still get a majority.
    fn one_of_these_may_win(&self) -> bool
        ensures { result ≡ list_any (λ answer. may_win self.now answer.1) self.now.answers }
    {
        self.answers
            .as_slice()
            .iter()
            .any(|answer| self.may_win(answer.1))
    }

    fn verdict(&self) -> RoundVerdict
        ensures { result ≡ round_verdict_of self.now }
    {
        if self.has_majority(self.me) {
            RoundVerdict::Won
        } else if self.is_won() {
            RoundVerdict::Over
        } else if self.one_may_win() {
            RoundVerdict::Open
        } else if self.limit <= self.round {
            RoundVerdict::Over
        } else {
            RoundVerdict::Next(self.round + 1)
        }
    }
}
