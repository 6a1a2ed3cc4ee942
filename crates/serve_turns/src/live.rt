ghost use Rattle.std.specs.Prelude.{◌≡◌, ◌||◌, []};
ghost use Rattle.serve_rules.specs.Served.{facts_of};
ghost use Rattle.serve_turns.specs.Live.{fresh_live};
ghost use Rattle.turn_rules.specs.Steps.{present};

use client_sessions::Sessions;
use fabric_turns::Run;
use fire_pace::FiringPace;
use state_lines::{ChangeTimes, SessionFacts};
use std::alloc::Global;
use std::marker::Model;

/// A served process between two events: its actor, what it keeps for its clients, the pace of its firings, since when
/// reconfigurations have been seen, and whether it was told to leave, or to end.
#[derive(Drop)]
pub struct Live {
    pub(crate) run: Run,
    pub(crate) sessions: Sessions,
    pub(crate) pace: FiringPace,
    pub(crate) changes: ChangeTimes,
    pub(crate) leaving: bool,
    pub(crate) ending: bool,
}

impl Model for Live {
    ghost use Rattle.serve_turns.specs.Live.{Live};

    ghost Value = { Live };

    ghost view = { λ l. record {
      run = l.run;
      sessions = l.sessions;
      pace = l.pace;
      changes = l.changes;
      leaving = l.leaving;
      ending = l.ending;
    } };
}

impl Live {
    /// Nothing has come to it. These sessions stand from the life before, and nothing has been seen of reconfigurations.
    pub fn new(alloc: Global, sessions: Sessions, changes: ChangeTimes) -> Live
        requires { changes ≡ [] }
        ensures { result ≡ fresh_live sessions }
    {
        Live {
            run: Run::new(alloc),
            sessions,
            pace: FiringPace::new(),
            changes,
            leaving: false,
            ending: false,
        }
    }

    /// The reading at which its actor acts.
    pub(crate) fn present(&self) -> u64
        ensures { result ≡ present self.now.run.last }
    {
        self.run.last().unwrap_or(0)
    }

    /// Whether a client has told it to end, or to leave.
    pub(crate) fn is_told_to_end(&self) -> bool
        ensures { result ≡ (self.now.ending || self.now.leaving) }
    {
        self.ending || self.leaving
    }

    /// How many answers are open, and how many clients watch.
    pub(crate) fn session_facts(&self) -> SessionFacts
        ensures { result ≡ facts_of self.now.sessions }
    {
        SessionFacts {
            open: self.sessions.open() as u64,
            watchers: self.sessions.watching() as u64,
        }
    }

    /// Whether a client told it to leave.
    pub fn is_leaving(&self) -> bool
        ensures { result ≡ self.now.leaving }
    {
        self.leaving
    }

    /// What it keeps for its clients, for the next life.
    pub fn into_sessions(self) -> Sessions
        ensures { result ≡ self.sessions }
    {
        self.sessions
    }
}
