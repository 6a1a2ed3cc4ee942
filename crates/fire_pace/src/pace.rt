ghost use Rattle.std.specs.Prelude.{◌≡◌, ◌≤◌, ◌/◌, ◌∷◌, [], List};
ghost use Rattle.fire_pace.specs.News.{Step};
ghost use Rattle.fire_pace.specs.Pace.{due_after, pace_after};
ghost use Rattle.fire_pace.specs.Pace;

use crate::news::{is_firing, is_news};
use fabric_terms::Report;
use ring_points::{MAX_LEASE, MAX_READING, MIN_LEASE};
use ring_rules::Input;
use std::marker::Model;

/// More doublings make no wait longer: a pace doubled as often is above each lease.
const KEPT_DOUBLINGS: u32 = 30;

/// How many ticks lie between two firings at least.
fn pace(lease: u64) -> u64
    ensures { result ≡ Pace.pace lease }
{
    5.min(lease / 8).max(1)
}

/// What a node keeps of its steps, to say when its next firing is due.
#[derive(Drop)]
pub struct FiringPace {
    /// The reading of the last firing.
    fired: Option<u64>,
    /// The reading of the last news.
    news: Option<u64>,
    /// How many firings came in turns without news since the last news, up to `KEPT_DOUBLINGS`.
    doublings: u32,
}

impl Model for FiringPace {
    ghost use Rattle.std.specs.Prelude.{◌≤◌, IfSome};
    ghost use Rattle.ring_points.specs.Limits.{most_reading};
    ghost use Rattle.fire_pace.specs.Pace.{Pace, kept_doublings};

    ghost Value = { Pace };

    ghost view = { λ p. record { fired = p.fired; news = p.news; doublings = p.doublings } };

    ghost invariant = { λ p. IfSome p.fired (λ reading. reading ≤ most_reading) × (p.doublings ≤ kept_doublings) };
}

impl FiringPace {
    /// No step was taken.
    pub fn new() -> FiringPace
        ensures { result ≡ pace_after [] }
    {
        FiringPace {
            fired: None,
            news: None,
            doublings: 0,
        }
    }

    /// A step was taken in the turn of this reading.
    pub fn did(&mut self, input: &Input, told: &[Report], now: u64)
        requires { now ≤ MAX_READING }
        ensures { (steps : List Step) → self.old ≡ pace_after steps →
            self.new ≡ pace_after (record { input = input.now; told = told.now; reading = now } ∷ steps) }
    {
        let fires = is_firing(input);
        if fires {
            self.fired = Some(now);
        }
        if is_news(input, told) {
            self.news = Some(now);
            self.doublings = 0;
        } else if fires && self.news != Some(now) {
            self.doublings = KEPT_DOUBLINGS.min(self.doublings + 1);
        }
    }

    /// The reading from which on the next firing is due, where this much is left of the lease.
    pub fn due(&self, lease: u64, left: u64) -> u64
        requires least { MIN_LEASE ≤ lease }
        requires most { lease ≤ MAX_LEASE }
        requires left { left ≤ lease }
        ensures { (steps : List Step) → self.now ≡ pace_after steps → result ≡ due_after steps lease left }
    {
        match self.fired {
            None => 0,
            Some(last) => last + wait(lease, left, self.doublings),
        }
    }
}

/// How many ticks after the last firing the next one is due, after so many doublings.
fn wait(lease: u64, left: u64, doublings: u32) -> u64
    requires least { MIN_LEASE ≤ lease }
    requires most { lease ≤ MAX_LEASE }
    requires left { left ≤ lease }
    requires doublings { doublings ≤ KEPT_DOUBLINGS }
    ensures wait { result ≡ Pace.wait_of lease left doublings }
    ensures least { Pace.pace lease ≤ result }
    ensures most { result ≤ lease / 8 }
{
    let pace = pace(lease);
    (pace * 2u64.pow(doublings)).min(pace.max(left / 8))
}
