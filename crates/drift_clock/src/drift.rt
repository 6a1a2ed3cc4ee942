ghost use Rattle.std.specs.Prelude.{◌≡◌, ◌≤◌, ◌↔◌, List, [], ◌∷◌, Some, IsOk, OnOk, OnErr, IfErr};
ghost use Rattle.drift_clock.specs.Within.{Pair, FitsAll};
ghost use Rattle.drift_clock.specs.Extremes.{Stands};
ghost use Rattle.drift_clock.specs.Refusals.{broken_with, broken_with_kept};

use crate::bound::{Bound, MAX_TRUE_TIME};
use crate::pair::{Pair, further_ahead, further_behind, too_fast, too_slow};
use ring_points::{MAX_DRIFT, MAX_GRAIN, MAX_READING};
use std::marker::Model;

/// A clock has left its bound: at `now`, against an `earlier` reading. Each is a true time and a
/// reading, in ticks.
#[derive(Clone, Copy, Debug, PartialEq, Eq)]
pub struct DriftBroken {
    pub earlier: (u64, u64),
    pub now: (u64, u64),
}

/// What a clock has shown since it began.
///
/// It stands for all true times and readings so far, and keeps of them the last, the one at which the
/// clock was furthest behind, and the one at which it was furthest ahead. A clock that is within its
/// bound of these is within its bound of all.
#[derive(Clone, Copy, Debug)]
pub struct Drift {
    bound: Bound,
    latest: Pair,
    behind: Pair,
    ahead: Pair,
}

impl Model for Drift {
    ghost use Rattle.drift_clock.specs.Extremes.{Extremes};
    ghost use Rattle.drift_clock.specs.Reach.{IsInReach};

    ghost Value = { Extremes };

    ghost view = { λ a. record { bound = a.bound; latest = a.latest; behind = a.behind; ahead = a.ahead } };

    ghost inverse = { λ k. record { bound = k.bound; latest = k.latest; behind = k.behind; ahead = k.ahead } };

    ghost invariant = { λ a. IsInReach a.bound a.latest a.behind a.ahead };
}

impl Drift {
    /// The clock shows this reading first.
    pub fn new(bound: Bound, true_time: u64, reading: u64) -> Drift
        requires drift { bound.d ≤ MAX_DRIFT }
        requires grain { bound.grain ≤ MAX_GRAIN }
        requires time { true_time ≤ MAX_TRUE_TIME }
        requires reading { reading ≤ MAX_READING }
        ensures bound { result.bound ≡ bound }
        ensures latest { result.latest ≡ (true_time, reading) }
        ensures first { Stands result ((true_time, reading) ∷ []) }
    {
        let first = (true_time, reading);
        Drift {
            bound,
            latest: first,
            behind: first,
            ahead: first,
        }
    }

    /// Takes the next reading, at a true time that is no earlier than the last.
    ///
    /// It is refused where with some earlier reading it breaks one of three rules, which are tried in
    /// this order: the reading does not fall; the clock is not too fast; it is not too slow. The error
    /// names the last reading for the first rule, and for the others that of the greatest excess, the
    /// earliest among equals.
    pub fn admit(&mut self, true_time: u64, reading: u64) -> Result<(), DriftBroken>
        requires order { self.old.latest.0 ≤ true_time }
        requires time { true_time ≤ MAX_TRUE_TIME }
        requires reading { reading ≤ MAX_READING }
        ensures bound { self.new.bound ≡ self.old.bound }
        ensures latest { OnOk result (self.new.latest ≡ (true_time, reading)) }

        // What follows holds of every list of pairs that the drift stood for, the newest first.
        ensures ok { (pairs : List Pair) → Stands self.old pairs →
            OnOk result (Stands self.new ((true_time, reading) ∷ pairs)) }
        ensures exactly_when { (pairs : List Pair) → Stands self.old pairs →
            (IsOk result ↔ FitsAll self.old.bound pairs (true_time, reading)) }
        ensures earlier { (pairs : List Pair) → Stands self.old pairs →
            IfErr result (λ e. broken_with self.old.bound pairs (true_time, reading) ≡ Some e.earlier) }
        ensures now { IfErr result (λ e. e.now ≡ (true_time, reading)) }
        ensures err { OnErr result (self.new ≡ self.old) }
    {
        let now = (true_time, reading);
        if let Some(earlier) = self.broken(now) {
            return Err(DriftBroken { earlier, now });
        }
        self.take(now);
        Ok(())
    }

    /// The kept pair with which the new one breaks the first broken rule.
    fn broken(&self, now: Pair) -> Option<Pair>
        requires order { self.now.latest.0 ≤ now.0 }
        requires time { now.0 ≤ MAX_TRUE_TIME }
        requires reading { now.1 ≤ MAX_READING }
        ensures { result ≡ broken_with_kept self.now now }
    {
        if now.1 < self.latest.1 {
            Some(self.latest)
        } else if too_fast(self.bound, now, self.behind) {
            Some(self.behind)
        } else if too_slow(self.bound, now, self.ahead) {
            Some(self.ahead)
        } else {
            None
        }
    }

    /// Keeps a pair that is within the bound of all.
    fn take(&mut self, now: Pair)
        requires order { self.old.latest.0 ≤ now.0 }
        requires rise { self.old.latest.1 ≤ now.1 }
        requires time { now.0 ≤ MAX_TRUE_TIME }
        requires reading { now.1 ≤ MAX_READING }
        ensures bound { self.new.bound ≡ self.old.bound }
        ensures latest { self.new.latest ≡ now }
        ensures stands { (pairs : List Pair) → Stands self.old pairs → FitsAll self.old.bound pairs now →
            Stands self.new (now ∷ pairs) }
    {
        self.latest = now;
        if further_behind(self.bound, now, self.behind) {
            self.behind = now;
        }
        if further_ahead(self.bound, now, self.ahead) {
            self.ahead = now;
        }
    }
}
