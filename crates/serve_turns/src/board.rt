ghost use Rattle.group_commit.specs.Groups.{AllKept};

use crate::handover::Handover;
use state_lines::{ChangeTimes, SessionFacts};
use turn_members::Member;

/// What can be seen of a served process between two turns.
#[derive(Clone, Copy)]
pub struct Shown<'a> {
    /// Its actor.
    pub actor: &'a Member,
    /// How many answers are open, and how many clients watch.
    pub sessions: SessionFacts,
    /// Since when its reconfigurations have been seen.
    pub changes: &'a ChangeTimes,
    /// The reading of the last turn, in ticks.
    pub now: u64,
}

/// What passes the time between two turns, and meanwhile shows the process to whoever asks.
pub trait Board {
    /// Returns when something may have come, or after so many ticks. Between two lives there is nothing to show. What
    /// was said leaves then, so each record that these devices told as kept is synced before.
    fn rest<O: Handover>(&mut self, outside: &O, most: u64, shown: Option<&Shown<'_>>)
        requires { AllKept (O.synced outside.now) (O.told outside.now).kept };
}
