ghost use Rattle.std.specs.Prelude.{◌≡◌, ◌≤◌, length, not};
ghost use Rattle.arbiter_quorum.specs.Tallies.{count_of, has_answered, is_granted, is_refused, may_be_heir, no_answers};
ghost use Rattle.arbiter_quorum.specs.Tallies.{noted, verdict_of};

use crate::quorum::is_majority;
use crate::verdict::Verdict;
use arrayvec::ArrayVec;
use ring_points::{MAX_ARBITRATORS, Ruling, Who};
use std::marker::Model;

/// The first answer of each arbitrator on the accusation of `victim` by `me`. Contracts see it as the record of
/// that name, with the answers in the order in which they came.
#[derive(Drop)]
pub struct Tally {
    me: Who,
    victim: Who,
    arbitrators: u8,
    answers: ArrayVec<(u8, Ruling), MAX_ARBITRATORS>,
}

impl Model for Tally {
    ghost use Rattle.arbiter_quorum.specs.Counted.{Counted};
    ghost use Rattle.arbiter_quorum.specs.Tallies.{Tally};

    ghost Value = { Tally };

    ghost view = { λ a. record {
      me = a.me;
      victim = a.victim;
      arbitrators = a.arbitrators;
      answers = a.answers.items;
    } };

    ghost invariant = { λ a. Counted a.arbitrators a.answers.items };
}

impl Tally {
    /// No answers yet, of at most 9 arbitrators.
    pub fn new(me: Who, victim: Who, arbitrators: u8) -> Self
        requires { arbitrators ≤ MAX_ARBITRATORS }
        ensures { result ≡ no_answers me victim arbitrators }
    {
        Tally {
            me,
            victim,
            arbitrators,
            answers: ArrayVec::new(),
        }
    }

    /// Counts this answer, unless the arbitrator has answered already, and says what the answers amount
    /// to now. Arbitrators are numbered from 1.
    pub fn note(&mut self, arbitrator: u8, ruling: Ruling) -> Verdict
        requires from { 1 ≤ arbitrator }
        requires to { arbitrator ≤ self.old.arbitrators }
        ensures noted { self.new ≡ noted self.old arbitrator ruling }
        ensures verdict { result ≡ verdict_of self.new }
    {
        if !self.answered(arbitrator) {
            self.answers.push((arbitrator, ruling));
        }
        self.verdict()
    }

    /// Whether an answer of this arbitrator is counted.
    pub fn answered(&self, arbitrator: u8) -> bool
        ensures { result ≡ has_answered arbitrator self.now.answers }
    {
        self.answers
            .as_slice()
            .iter()
            .any(|answer| answer.0 == arbitrator)
    }

    /// Whether those that granted and those that have not answered are a majority.
    pub fn may_be_heir(&self) -> bool
        ensures { result ≡ may_be_heir self.now }
    {
        let unanswered = usize::from(self.arbitrators).saturating_sub(self.answers.len());
        is_majority(self.arbitrators, self.granted() + unanswered)
    }

    fn granted(&self) -> usize
        ensures count { result ≡ count_of is_granted self.now }
        ensures few { result ≤ length self.now.answers }
    {
        self.answers
            .as_slice()
            .iter()
            .filter(|answer| answer.1 == Ruling::Granted)
            .count()
    }

    fn refused(&self) -> usize
        ensures { result ≡ count_of is_refused self.now }
    {
        self.answers
            .as_slice()
            .iter()
            .filter(|answer| answer.1 == Ruling::Refused)
            .count()
    }

    fn not_refused(&self) -> usize
        ensures { result ≡ count_of (λ r. not (is_refused r)) self.now }
    {
        self.answers
            .as_slice()
            .iter()
            .filter(|answer| answer.1 != Ruling::Refused)
            .count()
    }

    fn verdict(&self) -> Verdict
        ensures { result ≡ verdict_of self.now }
    {
        let not_refusing = usize::from(self.arbitrators).saturating_sub(self.refused());
        if is_majority(self.arbitrators, self.granted()) {
            Verdict::Heir
        } else if is_majority(self.arbitrators, self.not_refused()) {
            Verdict::Discharged
        } else if is_majority(self.arbitrators, not_refusing) {
            Verdict::Open
        } else {
            Verdict::Lost
        }
    }
}
