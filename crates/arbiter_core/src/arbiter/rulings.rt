//! Accusations of instances, and claims of rounds about them.

ghost use Rattle.std.specs.Prelude.{◌≡◌, Some};
ghost use Rattle.ring_rules.specs.Arbiters.{accusation_ruled};
ghost use Rattle.arbiter_core.specs.Arbiters.{Answers, accuse_call, claim_call, claim_told};
ghost use Rattle.arbiter_core.specs.Memory.{KeepsIfShort};

use crate::answer::{Answer, ArbiterError};
use crate::arbiter::Arbiter;
use fabric_terms::{Body, Record};
use ring_points::{Ruling, Who};

/// The first round of heirs, whose claimers are the accusers.
const FIRST_ROUND: u8 = 1;

/// What the claimer of a round is told: whom the arbitrator keeps of it.
fn told(item: Option<Record>, to: Who, victim: Who, round: u8, claimer: Who) -> Answer
    ensures { result ≡ claim_told item to victim round (Some claimer) }
{
    Answer::Reply {
        kept: item,
        to,
        body: Body::Kept {
            victim,
            round,
            claimer,
        },
    }
}

impl Arbiter {
    /// What is ruled on an accusation, by what is recorded before it.
    #[tactic(auto, unfolding(ring_rules::specs::Arbiters::accusation_ruled))]
    fn ruling(&self, accuser: Who, victim: Who) -> Ruling
        ensures { result ≡ accusation_ruled self.now.table.accusations accuser victim }
    {
        if self.first_accuser(accuser).is_some() {
            return Ruling::Refused;
        }
        match self.first_accuser(victim) {
            Some(first) if first != accuser => Ruling::Taken,
            _ => Ruling::Granted,
        }
    }

    /// Rules on an accusation, and keeps the first accuser of a victim.
    #[tactic(auto, unfolding(ring_rules::specs::Arbiters::accusation_ruled, ring_rules::specs::Arbiters::accusation_kept))]
    pub(super) fn rule(&mut self, accuser: Who, victim: Who) -> Result<Answer, ArbiterError>
        ensures answers { Answers (accuse_call accuser victim self.old) self.old self.new result }
        ensures memory { KeepsIfShort (accuse_call accuser victim self.old) result }
    {
        let ruling = self.ruling(accuser, victim);
        let body = Body::Ruled { victim, ruling };
        if self.first_accuser(accuser).is_some() || self.first_accuser(victim).is_some() {
            return Ok(Answer::Reply {
                kept: None,
                to: accuser,
                body,
            });
        }
        let kept = self.keep_accuser(victim, accuser)?;
        Ok(Answer::Reply {
            kept: Some(kept),
            to: accuser,
            body,
        })
    }

    /// Answers a claim of a round, and keeps the first claimer of a later one. Where nobody has accused the victim
    /// here, nobody is kept of its rounds.
    #[tactic(auto, unfolding(ring_rules::specs::Arbiters::claim_settled, ring_rules::specs::Arbiters::claim_kept))]
    pub(super) fn settle(
        &mut self,
        claimer: Who,
        victim: Who,
        round: u8,
    ) -> Result<Answer, ArbiterError>
        ensures answers { Answers (claim_call claimer victim round self.old) self.old self.new result }
        ensures memory { KeepsIfShort (claim_call claimer victim round self.old) result }
    {
        let Some(first) = self.first_accuser(victim) else {
            return Ok(Answer::Nothing);
        };
        if round == FIRST_ROUND {
            return Ok(told(None, claimer, victim, round, first));
        }
        if let Some(settled) = self.table.first_claimer(victim, round) {
            return Ok(told(None, claimer, victim, round, settled));
        }
        let kept = self.keep_claimer(victim, round, claimer)?;
        Ok(told(Some(kept), claimer, victim, round, claimer))
    }
}
