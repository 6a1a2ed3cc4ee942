// What the parent is told of a step, line by line.
ghost use Rattle.std.specs.Prelude.{◌≡◌, ◌+◌, ◌++◌, ◌∷◌, [], IfOk, OnOk};
ghost use Rattle.door_lines.specs.Replies.{GivesUp as GivesUpLine, reply_text};
ghost use Rattle.frame_hold.specs.Losses.{gives_up};
ghost use Rattle.parent_hold.specs.Lines.{after_report, after_step, begun_again, choice_next, fresh_telling, hears};
ghost use Rattle.parent_hold.specs.Lines.{owed_at, report_text, step_owed, step_text};

use door_lines::push_given_up;
use fabric_terms::{Head, OutOfMemory, Report};
use frame_hold::{Before, GivesUp, HoldingLinks, gives_up};
use group_commit::Outgoing;
use log_lines::{Asking, Written};
use report_lines::print_report;
use ring_points::Point;
use std::marker::Model;

/// A parent asks nothing by its reports: where a point is, it hears in the answer to its question.
#[derive(Drop)]
struct Nobody {}

impl Asking for Nobody {
    ghost use Rattle.std.specs.Prelude.{false};

    ghost asked = { λ a point. false };

    fn is_asked(&self, _point: Point) -> bool {
        false
    }
}

/// A step, as it is told to the parent: what the node had before it, its head, all that it reports, and its reading.
#[derive(Clone, Copy)]
pub struct StepOf<'a> {
    pub before: &'a Before,
    pub head: &'a Head,
    pub told: &'a [Report],
    pub reading: u64,
}

/// Whether a report that gives nothing up is told, which is the next one.
fn choose(written: &mut Written, report: &Report) -> bool
    ensures hears { result ≡ hears written.old report.now }
    ensures next { written.new ≡ choice_next written.old report.now }
{
    written.is_written(report, &Nobody {})
}

/// What is kept to tell a parent of steps: the number of its next line that gives something up, and which other reports
/// it hears.
#[derive(Drop)]
pub struct Telling {
    next: u64,
    written: Written,
}

impl Model for Telling {
    ghost use Rattle.parent_hold.specs.Lines.{Telling};

    ghost Value = { Telling };

    ghost view = { λ t. record { next = t.next; choice = t.written } };
}

impl Telling {
    /// Nothing was told. The parent hears every report if `all` says so.
    pub fn new(all: bool) -> Telling
        ensures { result ≡ fresh_telling all }
    {
        Telling {
            next: 1,
            written: Written::new(all),
        }
    }

    /// A new instance begins: no report of it was told. The numbers go on.
    pub fn begin(&mut self)
        ensures { self.new ≡ begun_again self.old }
    {
        self.written.begin();
    }

    /// Whether the parent hears this report, which is the next one, where it gives nothing up.
    fn hears_next(&mut self, report: &Report) -> bool
        ensures hears { result ≡ hears self.old.choice report.now }
        ensures next { self.new ≡ record self.old { choice = choice_next self.old.choice report.now } }
    {
        choose(&mut self.written, report)
    }

    /// The number of the next line that gives something up. There is none behind the greatest one of 64 bits.
    fn take_number(&mut self) -> Result<u64, OutOfMemory>
        ensures number { IfOk result (λ number. number ≡ self.old.next) }
        ensures next { OnOk result (self.new ≡ record self.old { next = self.old.next + 1 }) }
    {
        let number = self.next;
        match number.checked_add(1) {
            Some(next) => {
                self.next = next;
                Ok(number)
            }
            None => Err(OutOfMemory),
        }
    }
}

/// Opens the next number for what a report gives up, and appends the report's line.
fn open<N: Outgoing>(
    links: &mut HoldingLinks<'_, N>,
    telling: &mut Telling,
    step: &StepOf<'_>,
    report: &Report,
    what: GivesUp,
    text: &mut Vec<u8>,
) -> Result<(), OutOfMemory>
    ensures text { OnOk result (text.new.items
        ≡ text.old.items ++ reply_text (GivesUpLine telling.old.next step.now.head.now report.now)) }
    ensures owed { OnOk result (links.new.holding ≡ links.old.holding
        ++ record { number = telling.old.next; what = what; since = step.now.reading } ∷ []) }
    ensures telling { OnOk result (telling.new ≡ record telling.old { next = telling.old.next + 1 }) }
    ensures below { links.new.inner.now ≡ links.old.inner.now }
    ensures held { links.new.held ≡ links.old.held }
{
    let number = telling.take_number()?;
    links.note(number, what, step.reading)?;
    push_given_up(text, number, step.head, report)
}

/// Tells a report, the next one of the step: a line with a number where it gives something up, else a plain line if the
/// parent hears it.
fn tell_report<N: Outgoing>(
    links: &mut HoldingLinks<'_, N>,
    telling: &mut Telling,
    step: &StepOf<'_>,
    report: &Report,
    text: &mut Vec<u8>,
) -> Result<(), OutOfMemory>
    ensures text { OnOk result (text.new.items ≡ text.old.items
        ++ report_text (gives_up step.now.before.now step.now.told.now report.now) telling.old step.now.head.now
        report.now) }
    ensures owed { OnOk result (links.new.holding ≡ links.old.holding
        ++ owed_at (gives_up step.now.before.now step.now.told.now report.now) telling.old.next step.now.reading) }
    ensures telling { OnOk result (telling.new
        ≡ after_report (gives_up step.now.before.now step.now.told.now report.now) telling.old report.now) }
    ensures below { links.new.inner.now ≡ links.old.inner.now }
    ensures held { links.new.held ≡ links.old.held }
{
    let hears = telling.hears_next(report);
    match gives_up(step.before, step.told, report) {
        Some(what) => open(links, telling, step, report, what, text),
        None if hears => print_report(step.head, report, text),
        None => Ok(()),
    }
}

/// Tells a step: its lines are appended, and each number of them is owed from its reading on.
pub fn tell_step<N: Outgoing>(
    links: &mut HoldingLinks<'_, N>,
    telling: &mut Telling,
    step: &StepOf<'_>,
    text: &mut Vec<u8>,
) -> Result<(), OutOfMemory>
    ensures text { OnOk result (text.new.items ≡ text.old.items
        ++ step_text step.now.before.now step.now.told.now step.now.head.now telling.old step.now.told.now) }
    ensures owed { OnOk result (links.new.holding ≡ links.old.holding
        ++ step_owed step.now.before.now step.now.told.now step.now.reading telling.old step.now.told.now) }
    ensures telling { OnOk result (telling.new
        ≡ after_step step.now.before.now step.now.told.now telling.old step.now.told.now) }
    ensures below { links.new.inner.now ≡ links.old.inner.now }
    ensures held { links.new.held ≡ links.old.held }
{
    for report in step.told {
        tell_report(links, telling, step, report, text)?;
    }
    Ok(())
}
