ghost use Rattle.std.specs.Prelude.{◌≡◌, ◌≤◌, ◌+◌, [], length};
ghost use Rattle.ring_points.specs.Whos.{arbiter_actor};
ghost use Rattle.link_core.specs.Links.{did, did_after};
ghost use Rattle.link_core.specs.Rounds.{kept_received};
ghost use Rattle.link_core.specs.Rulings.{ruling_received};
ghost use Rattle.link_core.specs.Limits.{most_row_messages};

use crate::deadlines::change;
use crate::find;
use crate::links::Links16;
use crate::notes::{LinkNotes, no_notes};
use crate::rounds::{self, Keeping};
use crate::ruling::{self, Terms};
use fabric_terms::Outbox;
use ring_points::{ARBITRATORS, MAX_READING, OUTBOX_LIMIT, Ruling, Who};

impl Links16 {
    /// A ruling of this arbitrator.
    pub(crate) fn hear_ruling(
        &mut self,
        now: u64,
        from: Who,
        victim: Who,
        ruling: Ruling,
    ) -> LinkNotes
        requires now { now ≤ MAX_READING }
        requires first { arbiter_actor 1 ≤ from.actor }
        requires last { from.actor ≤ arbiter_actor self.old.arbitrators }
        ensures { did self.new [] result ≡ ruling_received now from victim ruling self.old }
    {
        let Some(i) = find::instance(&self.slots, victim) else {
            return no_notes();
        };
        let terms = Terms {
            answer: self.answer,
            bound: self.bound,
            rounds: self.rounds,
        };
        let arbitrator = (from.actor - ARBITRATORS) as u8;
        change!(self, i, slot => ruling::ruling_seen(slot, now, terms, arbitrator, ruling))
    }

    /// Whom this arbitrator keeps of a round about the victim, where there are rounds after the first.
    pub(crate) fn hear_kept(
        &mut self,
        now: u64,
        from: Who,
        victim: Who,
        kept: (u8, Who),
        out: &mut Outbox,
    ) -> LinkNotes
        requires now { now ≤ MAX_READING }
        requires first { arbiter_actor 1 ≤ from.actor }
        requires last { from.actor ≤ arbiter_actor self.old.arbitrators }
        requires room { length out.old + most_row_messages ≤ OUTBOX_LIMIT }
        ensures { did self.new out.new result ≡ did_after out.old (kept_received now from victim kept.0 kept.1 self.old) }
    {
        if self.rounds <= 1 {
            return no_notes();
        }
        let Some(i) = find::instance(&self.slots, victim) else {
            return no_notes();
        };
        let terms = Terms {
            answer: self.answer,
            bound: self.bound,
            rounds: self.rounds,
        };
        let keeping = Keeping {
            arbitrator: (from.actor - ARBITRATORS) as u8,
            round: kept.0,
            claimer: kept.1,
        };
        let arbitrators = self.arbitrators;
        change!(self, i, slot => rounds::kept_seen(slot, now, terms, arbitrators, keeping, out))
    }
}
