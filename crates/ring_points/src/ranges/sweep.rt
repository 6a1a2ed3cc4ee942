ghost use Rattle.std.specs.Prelude.{◌≡◌, ℕ, ◌+◌, ◌<◌, ◌≤◌, ◌^◌, Bool, IsTrue, OnOk, OnErr, IsSome, MatchResult, length};
ghost use Rattle.ring_points.specs.declared.interval.Interval.{Interval};
ghost use Rattle.ring_points.specs.Ranges.{in_ranges, rises_from, fits};
ghost use Rattle.ring_points.specs.Kept.{intervals_of, IsSwept, IsAnswer};
ghost use Rattle.ring_points.specs.Sweeps.{holds, is_kept, is_ahead};

use super::{RangeSet, TooMany};
use crate::interval::Interval;
use crate::limits::MAX_INTERVALS;
use arrayvec::ArrayVec;

/// Which points of its first two sets a sweep keeps.
#[derive(Clone, Copy)]
pub enum Rule {
    Either,
    Both,
}

impl Rule {
    fn keeps(self, first: bool, second: bool) -> bool
        ensures { result ≡ holds self first second }
    {
        match self {
            Rule::Either => first || second,
            Rule::Both => first && second,
        }
    }
}

/// Points in a row that are all in a set or all outside, up to the last of them.
#[derive(Clone, Copy)]
struct Stretch {
    inside: bool,
    last: u64,
}

/// The stretch that begins at the point `at`.
#[tactic(auto, using(crate::proofs::Ahead::before_first))]
fn stretch_from(rest: &[Interval], at: u64) -> Stretch
    requires { IsTrue (is_ahead at rest.now) }
    ensures begins { at ≤ result.last }
    ensures ahead { IsTrue (is_ahead result.last rest.now) }
    ensures alike { (p : ℕ) → at ≤ p → p ≤ result.last → in_ranges p rest.now ≡ result.inside }
{
    match rest {
        [] => Stretch {
            inside: false,
            last: u64::MAX,
        },
        [next, ..] if at < next.lo => Stretch {
            inside: false,
            last: next.lo - 1,
        },
        [next, ..] => Stretch {
            inside: true,
            last: next.hi,
        },
    }
}

/// The intervals that go on behind the point `last`.
fn rest_after(rest: &[Interval], last: u64) -> &[Interval]
    requires { IsTrue (is_ahead last rest.now) }
    ensures ahead { IsTrue (is_ahead (last + 1) result.now) }
    ensures same { (p : ℕ) → last < p → in_ranges p result.now ≡ in_ranges p rest.now }
{
    match rest {
        [next, later @ ..] if next.hi == last => later,
        _ => rest,
    }
}

/// What a sweep goes over: the points that its rule keeps of the first two sets, without the third.
#[derive(Clone, Copy)]
pub struct Sets<'a> {
    pub rule: Rule,
    pub first: &'a [Interval],
    pub second: &'a [Interval],
    pub without: &'a [Interval],
}

impl<'a> Sets<'a> {
    /// The stretch of kept points, or of others, that begins at the point `at`.
    fn stretch_from(&self, at: u64) -> Stretch
        requires first { IsTrue (is_ahead at self.now.first.now) }
        requires second { IsTrue (is_ahead at self.now.second.now) }
        requires without { IsTrue (is_ahead at self.now.without.now) }
        ensures begins { at ≤ result.last }
        ensures first { IsTrue (is_ahead result.last self.now.first.now) }
        ensures second { IsTrue (is_ahead result.last self.now.second.now) }
        ensures without { IsTrue (is_ahead result.last self.now.without.now) }
        ensures alike { (p : ℕ) → at ≤ p → p ≤ result.last →
            is_kept self.now.rule self.now.first.now self.now.second.now self.now.without.now p ≡ result.inside }
    {
        let first = stretch_from(self.first, at);
        let second = stretch_from(self.second, at);
        let without = stretch_from(self.without, at);
        Stretch {
            inside: self.rule.keeps(first.inside, second.inside) && !without.inside,
            last: first.last.min(second.last).min(without.last),
        }
    }

    /// The same sets behind the point `last`.
    fn after(self, last: u64) -> Sets<'a>
        requires first { IsTrue (is_ahead last self.first.now) }
        requires second { IsTrue (is_ahead last self.second.now) }
        requires without { IsTrue (is_ahead last self.without.now) }
        ensures first { IsTrue (is_ahead (last + 1) result.first.now) }
        ensures second { IsTrue (is_ahead (last + 1) result.second.now) }
        ensures without { IsTrue (is_ahead (last + 1) result.without.now) }
        ensures same { (p : ℕ) → last < p →
            is_kept result.rule result.first.now result.second.now result.without.now p ≡ is_kept self.entry.rule self.entry.first.now self.entry.second.now self.entry.without.now p }
    {
        Sets {
            rule: self.rule,
            first: rest_after(self.first, last),
            second: rest_after(self.second, last),
            without: rest_after(self.without, last),
        }
    }
}

/// What a sweep has kept: whole intervals, and behind them one that may still grow.
#[derive(Drop)]
pub struct Swept {
    pub intervals: ArrayVec<Interval, MAX_INTERVALS>,
    pub growing: Option<Interval>,
}

impl Swept {
    fn new() -> Self
        ensures { (keep : ℕ → Bool) → IsSwept keep result 0 }
    {
        Swept {
            intervals: ArrayVec::new(),
            growing: None,
        }
    }

    /// The growing interval is whole.
    fn close(&mut self) -> Result<(), TooMany>
        ensures ok { OnOk result (self.new.intervals.items ≡ intervals_of self.old) }
        ensures closed { OnOk result (self.new.growing ≡ None) }
        ensures err { OnErr result (length self.old.intervals.items ≡ 32) }
        ensures too_many { OnErr result (IsSome self.old.growing) }
        ensures fits { length self.new.intervals.items ≤ 32 }
    {
        let full = self.intervals.is_full();
        match self.growing {
            Some(_) if full => Err(TooMany),
            Some(interval) => {
                self.intervals.push(interval);
                self.growing = None;
                Ok(())
            }
            None => Ok(()),
        }
    }

    /// Passes from `at` to `last`, over points that are all kept or all not.
    fn pass(&mut self, inside: bool, at: u64, last: u64) -> Result<(), TooMany>
        ensures { (keep : ℕ → Bool) → IsSwept keep self.old at → at ≤ last →
            ((p : ℕ) → at ≤ p → p ≤ last → keep p ≡ inside) →
            MatchResult result (λ _. IsSwept keep self.new (last + 1)) (λ e. IsAnswer keep (Err e)) }
    {
        if !inside {
            return self.close();
        }
        let lo = match self.growing {
            Some(interval) => interval.lo,
            None => at,
        };
        self.growing = Some(Interval { lo, hi: last });
        Ok(())
    }

    fn finish(mut self) -> Result<RangeSet, TooMany>
        requires { IsTrue (rises_from 0 (intervals_of self)) }
        ensures { (keep : ℕ → Bool) → IsSwept keep self (2 ^ 64) → IsAnswer keep result }
    {
        self.close()?;
        Ok(RangeSet {
            intervals: self.intervals,
        })
    }
}

/// The set of the points that the rule keeps, in one pass over the intervals of all three sets.
pub fn sweep(sets: Sets) -> Result<RangeSet, TooMany>
    requires first { IsTrue (rises_from 0 sets.first.now) }
    requires second { IsTrue (rises_from 0 sets.second.now) }
    requires without { IsTrue (rises_from 0 sets.without.now) }
    ensures { IsAnswer (is_kept sets.entry.rule sets.entry.first.now sets.entry.second.now sets.entry.without.now)
        result }
{
    let mut rest = sets;
    let mut kept = Swept::new();
    let mut at = 0;
    loop {
        let stretch = rest.stretch_from(at);
        kept.pass(stretch.inside, at, stretch.last)?;
        if stretch.last == u64::MAX {
            return kept.finish();
        }
        rest = rest.after(stretch.last);
        at = stretch.last + 1;
    }
}
