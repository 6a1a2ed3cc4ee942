ghost use Rattle.std.specs.Prelude.{◌≡◌, ◌∷◌, [], List};
ghost use Rattle.fabric_terms.specs.declared.report.Report.{Report};
ghost use Rattle.log_lines.specs.Reports.{choice_after, is_told, own_or, repeats};
ghost use Rattle.log_lines.specs.Reports;

use crate::asking::Asking;
use arrayvec::ArrayVec;
use fabric_terms::Report;
use ring_points::{Interval, MAX_INTERVALS, RangeSet};
use std::marker::Model;

/// Which reports of an instance are written to the log.
#[derive(Drop)]
pub struct Written {
    /// Whether the log is to have every report.
    all: bool,
    /// Whether an `own` was reported; then `own` has the intervals of the last one.
    owned: bool,
    own: ArrayVec<Interval, MAX_INTERVALS>,
}

impl Model for Written {
    ghost use Rattle.std.specs.Prelude.{Some, None, if◌then◌else◌};
    ghost use Rattle.log_lines.specs.Reports.{Choice};

    ghost Value = { Choice };

    ghost view = { λ w. record { all = w.all; own = if w.owned then Some w.own.items else None } };
}

impl Written {
    /// No report has come. The log has every report if `all` says so.
    pub fn new(all: bool) -> Written
        ensures { result ≡ choice_after all [] }
    {
        Written {
            all,
            owned: false,
            own: ArrayVec::new(),
        }
    }

    /// A new instance begins: no report of it has come.
    pub fn begin(&mut self)
        ensures { self.new ≡ choice_after self.old.all [] }
    {
        self.owned = false;
    }

    /// Whether the log has this report, which is the next one of the instance.
    pub fn is_written<A: Asking>(&mut self, report: &Report, asking: &A) -> bool
        ensures written { (before : List Report) → self.old ≡ choice_after self.old.all before →
            result ≡ Reports.is_written self.old.all report.now before (A.asked asking.now) }
        ensures reported { (before : List Report) → self.old ≡ choice_after self.old.all before →
            self.new ≡ choice_after self.old.all (report.now ∷ before) }
    {
        let is_told = self.is_told(report, asking);
        self.note(report);
        self.all || is_told
    }

    /// Whether the report says something new.
    fn is_told<A: Asking>(&self, report: &Report, asking: &A) -> bool
        ensures { result ≡ is_told report.now self.now.own (A.asked asking.now) }
    {
        match report {
            Report::Own(ranges, _) => !self.repeats(ranges),
            Report::Found(point, _) => asking.is_asked(*point),
            Report::Nowhere(point) => asking.is_asked(*point),
            _ => true,
        }
    }

    /// Whether these are the ranges of the last `own`.
    fn repeats(&self, ranges: &RangeSet) -> bool
        ensures { result ≡ repeats ranges.now self.now.own }
    {
        self.owned && ranges.intervals() == self.own.as_slice()
    }

    /// Keeps the ranges of an `own`.
    fn note(&mut self, report: &Report)
        ensures { self.new ≡ record self.old { own = own_or report.now self.old.own } }
    {
        if let Report::Own(ranges, _) = report {
            put_intervals(&mut self.own, ranges);
            self.owned = true;
        }
    }
}

/// Puts the intervals of a set in the place of others.
fn put_intervals(into: &mut ArrayVec<Interval, MAX_INTERVALS>, ranges: &RangeSet)
    ensures { into.new.items ≡ ranges.now }
{
    into.clear();
    for interval in ranges.intervals() {
        into.push(*interval);
    }
}
