ghost use Rattle.std.specs.Prelude.{◌≡◌, ◌≤◌, [], None, Some, IfOk, IfSome, IsOk, OnErr, OnOk};
ghost use Rattle.node_core.specs.NodeEffects.{HasRoom, IsAsLarge, IsClear, IsReady, StaysLarge, left_in};
ghost use Rattle.node_core.specs.Nodes.{IsNothing, frames_limit};

use crate::batch::Batch;
use crate::capacity::give_away;
use crate::outcome::Outcome;
use fabric_terms::{Message, OutOfMemory, Outbox, Record, Report};
use ring_node::Reports;
use ring_points::{MAX_RING_REPORTS, MAX_STEP_REPORTS};
use std::alloc::Global;
use std::mem;
use unit_desk::{MAX_ROW_RECORDS, MAX_ROW_REPORTS, UnitEffects};

// A step reports what the ring's step and one row above it do, and once what is owned.
const _: () = prove!(MAX_RING_REPORTS + MAX_ROW_REPORTS + 1 <= MAX_STEP_REPORTS);

/// What a step of a node records, sends and reports, and the memory for it. Whoever runs many nodes has one of these,
/// and each step is done into it. What the last step left is there until the next one begins.
#[derive(Drop)]
pub struct NodeEffects {
    pub(crate) out: Outbox,
    /// What the ring's step tells. The list is boxed, because its room is in the value itself and takes 35 KB: the rest is
    /// small to move.
    pub(crate) told: Box<Reports>,
    /// What is done above the ring.
    pub(crate) units: UnitEffects,
    pub(crate) records: Vec<Record>,
    pub(crate) frames: Vec<Message>,
    pub(crate) reports: Vec<Report>,
}

/// Drops effects. It is never inlined: their list of reports is moved to the stack where it is dropped, and whoever calls that
/// inline pays for 35 KB each time.
#[inline(never)]
pub(crate) fn drop_boxed(_effects: Box<NodeEffects>) {}

impl NodeEffects {
    /// Effects of no step, without memory for one. It is never inlined into a step, which would then pay at each entry
    /// for the room in which they are made.
    #[inline(never)]
    fn boxed(alloc: Global) -> Result<Box<NodeEffects>, OutOfMemory>
        ensures { IfOk result (λ d. IsClear d.value) }
    {
        let out = Outbox::new(alloc)?;
        let units = UnitEffects::new(alloc)?;
        let told = Box::new(alloc, Reports::new())?;
        Ok(Box::new(
            alloc,
            NodeEffects {
                out,
                told,
                units,
                records: Vec::new(alloc),
                frames: Vec::new(alloc),
                reports: Vec::new(alloc),
            },
        )?)
    }

    /// Takes out the effects that are kept there, or makes some where there are none. It is an error where memory for
    /// them is short.
    pub fn take_from(
        kept: &mut Option<Box<NodeEffects>>,
        alloc: Global,
    ) -> Result<Box<NodeEffects>, OutOfMemory>
        ensures taken { kept.new ≡ None }
        ensures same { IfSome kept.old (λ e. IfOk result (λ d. d ≡ e)) }
        ensures memory { OnErr result (kept.old ≡ None) }
    {
        match kept.take() {
            Some(effects) => Ok(effects),
            None => NodeEffects::boxed(alloc),
        }
    }

    /// Keeps these effects there for the next step, and drops those that were there.
    pub fn keep_in(kept: &mut Option<Box<NodeEffects>>, effects: Box<NodeEffects>)
        ensures { kept.new ≡ Some effects }
    {
        match kept.replace(effects) {
            None => {}
            Some(former) => drop_boxed(former),
        }
    }

    /// Drops the effects that are kept there.
    pub(crate) fn drop_from(kept: &mut Option<Box<NodeEffects>>)
        ensures { kept.new ≡ None }
    {
        match kept.take() {
            None => {}
            Some(former) => drop_boxed(former),
        }
    }

    /// Drops what the last step left. The memory stays.
    fn clear(&mut self)
        ensures clear { IsClear self.new }
        ensures room { IsAsLarge self.old self.new }
    {
        self.out.clear();
        self.told.truncate(0);
        self.units.records.clear();
        self.units.out.clear();
        self.units.told.clear();
        self.records.clear();
        self.frames.clear();
        self.reports.clear();
    }

    /// Makes room for what one step leaves, with so many frames. It wants memory only where there is less.
    pub(crate) fn make_room(&mut self, frames: usize) -> Result<(), OutOfMemory>
        requires frames { frames ≤ frames_limit }
        ensures left { left_in self.new ≡ left_in self.old }
        ensures clear { IsClear self.old → IsClear self.new }
        ensures ready { OnOk result (HasRoom frames self.new) }
        ensures room { IsAsLarge self.old self.new }
        ensures memory { IsNothing (left_in self.old) → HasRoom frames self.old → IsOk result }
    {
        self.records.reserve(MAX_ROW_RECORDS)?;
        self.frames.reserve(frames)?;
        self.reports.reserve(MAX_STEP_REPORTS)?;
        Ok(())
    }

    /// Drops what the last step left, and makes room for what one step leaves, with so many frames. It wants memory
    /// only where there is less.
    pub(crate) fn make_ready(&mut self, frames: usize) -> Result<(), OutOfMemory>
        requires frames { frames ≤ frames_limit }
        ensures ready { OnOk result (IsReady frames self.new) }
        ensures clear { IsClear self.new }
        ensures room { IsAsLarge self.old self.new }
        ensures memory { HasRoom frames self.old → IsOk result }
    {
        self.clear();
        self.make_room(frames)
    }

    /// What the last step records, in its order.
    pub fn records(&self) -> &[Record]
        ensures { result.now ≡ (left_in self.now).records }
    {
        self.records.as_slice()
    }

    /// What the last step sends, in its order.
    pub fn frames(&self) -> &[Message]
        ensures { result.now ≡ (left_in self.now).frames }
    {
        self.frames.as_slice()
    }

    /// What the last step reports, in its order.
    pub fn reports(&self) -> &[Report]
        ensures { result.now ≡ (left_in self.now).reports }
    {
        self.reports.as_slice()
    }

    /// Gives away the reports of the last step with their memory. The next step makes its own, unless it is given some.
    pub fn take_reports(&mut self, alloc: Global) -> Batch<Report>
        ensures taken { result ≡ (left_in self.old).reports }
        ensures rest { left_in self.new ≡ record (left_in self.old) { reports = [] } }
    {
        Batch::new(mem::replace(&mut self.reports, Vec::new(alloc)))
    }

    /// Takes the memory of these reports for those of the next step, where it is more than what is there. No reports
    /// are left.
    pub fn reuse_reports(&mut self, reports: Batch<Report>)
        ensures { left_in self.new ≡ record (left_in self.old) { reports = [] } }
    {
        let mut given = reports.into_vec();
        let kept = &mut self.reports;
        if given.capacity() > kept.capacity() {
            mem::swap(&mut given, kept);
        }
        kept.clear();
    }

    /// Holds this in the place of what the last step left.
    pub fn hold(&mut self, outcome: Outcome)
        ensures { left_in self.new ≡ outcome }
    {
        self.records = outcome.records.into_vec();
        self.frames = outcome.frames.into_vec();
        self.reports = outcome.reports.into_vec();
    }

    /// Gives away what the last step left. Nothing is left then.
    pub(crate) fn give_away(&mut self, alloc: Global) -> Outcome
        ensures given { result ≡ left_in self.old }
        ensures nothing { IsNothing (left_in self.new) }
        ensures room { StaysLarge result self.old self.new }
    {
        Outcome {
            records: Batch::new(give_away(alloc, &mut self.records)),
            frames: Batch::new(give_away(alloc, &mut self.frames)),
            reports: Batch::new(give_away(alloc, &mut self.reports)),
        }
    }
}
