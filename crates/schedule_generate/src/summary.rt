ghost use Rattle.std.specs.Prelude.{◌≡◌, ◌++◌, ◌+◌, ◌≤◌, ◌<◌, ℕ, IfOk, IsTrue, OnOk, count_by};
ghost use Rattle.fabric_status.specs.Writes.{Wrote};
ghost use Rattle.schedule_generate.specs.Goes.{IsSettled};
ghost use Rattle.schedule_generate.specs.Laws.{judged_of};
ghost use Rattle.schedule_generate.specs.Statuses.{may_end_generate};
ghost use Rattle.schedule_rules.specs.Schedule.{judge};
ghost use Rattle.ring_world.specs.Answers.{StandsFor};
ghost use Rattle.schedule_generate.specs.Settings.{generated_config, most_generated_nodes};
ghost use Rattle.schedule_generate.specs.Tallies.{Counts, reports_in};
ghost use Rattle.fabric_terms.specs.Places.{tells_leave};
ghost use Rattle.schedule_generate.specs.Texts.{all_written, drill_writing, ended, gen_text, generated, is_take_over};
ghost use Rattle.schedule_generate.specs.Texts.{summary};
ghost use Rattle.world_rules.specs.Runs.{History};

use crate::course_observer::CourseObserver;
use crate::moves::Move;
use crate::write::write_schedule;
use edge_io::Sink;
use fabric_status::{Status, push_numbered};
use fabric_terms::{OutOfMemory, Report};
use ring_world::{Acted, World};
use std::alloc::Global;

/// How many take-overs and how many leaves were reported.
#[derive(Drop)]
pub struct DrillCounts {
    took_over: u64,
    left: u64,
}

fn is_take_over(report: &Report) -> bool
    ensures { result ≡ is_take_over report.now }
{
    matches!(report, Report::TookOver(..))
}

fn tells_leave(report: &Report) -> bool
    ensures { result ≡ tells_leave report.now }
{
    matches!(report, Report::LeftRing(_))
}

/// One more, if the number has room for it.
fn one_more(count: u64) -> Result<u64, OutOfMemory>
    ensures { IfOk result (λ more. more ≡ count + 1) }
{
    match count.checked_add(1) {
        Some(more) => Ok(more),
        None => Err(OutOfMemory),
    }
}

impl DrillCounts {
    /// Counts these reports.
    fn count(&mut self, reports: &[Report]) -> Result<(), OutOfMemory>
        ensures took_over { OnOk result (self.new.took_over ≡ self.old.took_over + count_by is_take_over reports.now) }
        ensures left { OnOk result (self.new.left ≡ self.old.left + count_by tells_leave reports.now) }
    {
        for report in reports {
            if is_take_over(report) {
                self.took_over = one_more(self.took_over)?;
            }
            if tells_leave(report) {
                self.left = one_more(self.left)?;
            }
        }
        Ok(())
    }

    fn take(&mut self, acted: &Option<Acted>) -> Result<(), OutOfMemory>
        ensures took_over { OnOk result (self.new.took_over ≡ self.old.took_over + count_by is_take_over
            (reports_in acted.now)) }
        ensures left { OnOk result (self.new.left ≡ self.old.left + count_by tells_leave (reports_in acted.now)) }
    {
        match acted {
            None => Ok(()),
            Some(acted) => self.count(acted.reports.as_slice()),
        }
    }

    /// Appends the summary.
    fn push_summary(&self, world: &World, text: &mut Vec<u8>) -> Result<(), OutOfMemory>
        ensures { (n : ℕ) (h : History) → Counts self.now n h → StandsFor world.now (generated_config n) h →
            OnOk result (text.new.items ≡ text.old.items ++ summary (generated_config n) h) }
    {
        let (events, frames) = world.counts();
        push_numbered(text, b"events ", events)?;
        push_numbered(text, b"frames ", u64::from(frames))?;
        push_numbered(text, b"tookover ", self.took_over)?;
        push_numbered(text, b"left ", self.left)?;
        push_numbered(text, b"held ", u64::from(world.held()))
    }
}

impl CourseObserver for DrillCounts {
    ghost writing = { drill_writing };

    ghost knows = { Counts };

    fn begin(&self, _nodes: u16, _text: &mut Vec<u8>) -> Result<(), OutOfMemory> {
        Ok(())
    }

    fn took(
        &mut self,
        _world: &World,
        _line: u64,
        _made: Move,
        acted: &Option<Acted>,
        _text: &mut Vec<u8>,
    ) -> Result<(), OutOfMemory> {
        self.take(acted)
    }

    fn ticked(
        &mut self,
        _world: &World,
        _line: u64,
        _advance: u64,
        _readings: &[(u16, u64)],
        _text: &mut Vec<u8>,
    ) -> Result<(), OutOfMemory> {
        Ok(())
    }

    fn end(&self, world: &World, text: &mut Vec<u8>) -> Result<(), OutOfMemory> {
        self.push_summary(world, text)
    }
}

/// Runs the schedule of a seed, so many nodes and so many rounds, and writes how many events it has, how many frames
/// were sent, how many take-overs and leaves were reported, and how many instances hold a point at the end; or the
/// fault of the line that is too large. At `OutOfMemory` and `WriteFault` the sink has a front of that; `WriteFault`
/// comes only where the sink's count of faults rose.
#[tactic(auto, using(crate::proofs::Ends::may_end))]
pub fn drill<K: Sink>(alloc: Global, seed: u64, nodes: u16, rounds: u32, sink: &mut K) -> Status
    requires some { 1 ≤ nodes }
    requires few { nodes ≤ most_generated_nodes }
    ensures statuses { IsTrue (may_end_generate result) }
    ensures judged { IsSettled result → judge (gen_text seed nodes rounds) ≡ judged_of nodes
        (generated seed nodes rounds) }
    ensures wrote { Wrote (ended (generated seed nodes rounds))
        (all_written (drill_writing nodes) (generated seed nodes rounds)) result (K.held sink.old) (K.held sink.new)
        (K.faults sink.old) (K.faults sink.new) }
{
    let mut tally = DrillCounts {
        took_over: 0,
        left: 0,
    };
    write_schedule(alloc, seed, nodes, rounds, &mut tally, sink)
}
