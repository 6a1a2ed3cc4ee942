use std::rt::Clock;
use std::thread;
use std::time::{Duration, Instant};

/// How long a turn of a process lasts at least, in milliseconds.
const TURN: u64 = 5;

/// How long a wait rests before it looks again whether something has come, in milliseconds.
const REST: u64 = 1;

/// How often a wait rests at most, whatever the clock shows: so many rests are a whole turn.
pub const MAX_RESTS: usize = 5;

/// The pace of a process: when the present turn has lasted long enough. Nodes that have a link send frames
/// at each firing. If every frame ended the wait of its receiver, two of them would wake each other without
/// end. If only silence ended it, many peers would stretch a turn beyond a lease. So the clock ends it. The
/// timeout of a socket cannot: a machine rounds it up to its own grain, which may be as long as a turn.
#[derive(Drop)]
pub struct Pace<'a, R: Clock> {
    rt: &'a R,
    began: Option<Instant>,
}

impl<'a, R: Clock> Pace<'a, R> {
    /// The first turn begins as it is first asked for.
    pub fn new(rt: &'a R) -> Self {
        Pace { rt, began: None }
    }
}

impl<R: Clock> Pace<'_, R> {
    /// Rests for a while, unless the turn has lasted long enough. Says whether it rested.
    pub fn rests(&mut self) -> bool {
        let left = Duration::from_millis(TURN).saturating_sub(self.passed());
        if left.is_zero() {
            return false;
        }
        thread::sleep(self.rt, left.min(Duration::from_millis(REST)));
        true
    }

    /// The next turn begins.
    pub fn begin(&mut self) {
        self.began = Instant::now(self.rt).ok();
    }

    /// How long the turn has lasted. A clock that cannot be read shows nothing.
    fn passed(&mut self) -> Duration {
        if self.began.is_none() {
            self.begin();
        }
        match (self.began, Instant::now(self.rt)) {
            (Some(began), Ok(now)) => now.duration_since(began),
            _ => Duration::ZERO,
        }
    }
}
