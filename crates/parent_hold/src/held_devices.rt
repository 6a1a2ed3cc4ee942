ghost use Rattle.std.specs.Prelude.{◌≡◌, ◌≢◌, ◌++◌, true, IfOk, OnErr, OnOk};
ghost use Rattle.edge_io.specs.Edge.{Grew};
ghost use Rattle.frame_hold.specs.Waits.{is_overdue, without};
ghost use Rattle.parent_hold.specs.Had.{IsSeen, had_of};
ghost use Rattle.parent_hold.specs.Handing.{had_by, held_by, owed_by, telling_by};
ghost use Rattle.parent_hold.specs.Lines.{after_step, fresh_telling, step_owed, step_text};

use crate::parent_lines::ParentLines;
use crate::seen::{Seen, nothing, see};
use crate::step_lines::{StepOf, Telling, tell_step};
use edge_io::{Clock, Sink};
use fabric_terms::OutOfMemory;
use frame_hold::{Before, HoldingLinks};
use group_commit::{Commit, GroupKeeper, Outgoing};
use std::alloc::Global;
use std::mem;
use turn_members::{Deed, Member};

/// How a parent is told of steps, and for how many ticks it may owe a `done`.
#[derive(Clone, Copy)]
pub struct HoldTerms {
    /// Whether the parent hears every report.
    pub all_lines: bool,
    pub hold: u64,
}

/// The devices below those of a node that has a parent.
#[derive(Drop)]
pub struct DevicesBelow<'k, 'h, 'n, 'd, 'c, K: Sink, N: Outgoing, D: GroupKeeper, C: Clock> {
    pub sink: &'k mut K,
    pub links: &'h mut HoldingLinks<'n, N>,
    pub keeps: &'d mut D,
    pub clock: &'c mut C,
}

/// The devices of a node that has a parent. The records of many steps are synced by one call, and their frames wait for
/// it; so do the lines of the parent, in its stream.
#[derive(Drop)]
pub struct HeldDevices<
    'k,
    'h,
    'n,
    'd,
    'c,
    K: Sink,
    N: Outgoing,
    D: GroupKeeper,
    C: Clock,
    P: ParentLines,
> {
    alloc: Global,
    pub(crate) sink: &'k mut K,
    pub(crate) links: &'h mut HoldingLinks<'n, N>,
    pub(crate) keeps: &'d mut D,
    pub(crate) clock: &'c mut C,
    pub(crate) commit: Commit,
    parent: P,
    telling: Telling,
    /// What the node had before the step that is under way.
    seen: Seen,
    hold: u64,
    /// The last reading.
    pub(crate) last: u64,
}

impl<
    'k,
    'h,
    'n,
    'd,
    'c,
    K: Sink,
    N: Outgoing,
    D: GroupKeeper,
    C: Clock,
    P: ParentLines,
> HeldDevices<'k, 'h, 'n, 'd, 'c, K, N, D, C, P> {
    /// Nothing was told to the parent.
    pub fn new(
        alloc: Global,
        devices: DevicesBelow<'k, 'h, 'n, 'd, 'c, K, N, D, C>,
        parent: P,
        terms: HoldTerms,
    ) -> Self
        ensures sink { result.sink ≡ devices.entry.sink }
        ensures links { result.links ≡ devices.entry.links }
        ensures keeps { result.keeps ≡ devices.entry.keeps }
        ensures clock { result.clock ≡ devices.entry.clock }
        ensures parent { result.parent ≡ parent }
        ensures telling { result.telling ≡ fresh_telling terms.all_lines }
        ensures seen { result.seen ≡ Seen.Nobody }
    {
        let DevicesBelow {
            sink,
            links,
            keeps,
            clock,
        } = devices;
        HeldDevices {
            alloc,
            sink,
            links,
            keeps,
            clock,
            commit: Commit::new(),
            parent,
            telling: Telling::new(terms.all_lines),
            seen: Seen::Nobody,
            hold: terms.hold,
            last: 0,
        }
    }

    /// What is seen of the actor before its step.
    pub fn see_member(&mut self, actor: &Member)
        ensures seen { IsSeen (had_of actor.now) self.new.seen }
        ensures rest { self.new ≡ record self.old { seen = self.new.seen } }
    {
        self.seen = see(self.alloc, actor);
    }

    /// Takes in what the parent has sent by now. A parent that owes a `done` for longer than it may, at the last
    /// reading, is silent.
    pub fn gather_lines(&mut self)
        ensures silent { is_overdue self.old.last self.old.hold self.old.links.now.holding ≡ true →
            P.silent self.new.parent ≡ true }
        ensures said { P.said self.new.parent ≡ P.said self.old.parent }
        ensures rest { self.new ≡ record self.old { parent = self.new.parent } }
    {
        if self.links.is_overdue(self.last, self.hold) {
            self.parent.silence();
        }
        self.parent.gather();
        self.parent.note_held(self.links.held());
    }

    /// The parent has let go of what this number gave up. A number that is not owed changes nothing.
    pub fn close_number(&mut self, number: u64)
        ensures closed { self.new.links.now.holding ≡ without number self.old.links.now.holding }
        ensures held { self.new.links.now.held ≡ self.old.links.now.held }
        ensures below { self.new.links.now.inner.now ≡ self.old.links.now.inner.now }
        ensures same { self.new.links.ghost_name ≡ self.old.links.ghost_name }
        ensures rest { self.new ≡ record self.old { links = self.new.links } }
    {
        self.links.done(number);
    }

    /// What the node had before the step. A step before which there was nobody is the start of an instance: nothing is
    /// owed then, and nothing waits.
    fn take_seen(&mut self) -> Result<Before, OutOfMemory>
        ensures had { IfOk result (λ had. had ≡ had_by self.old.seen) }
        ensures known { OnOk result (self.old.seen ≢ Seen.Short) }
        ensures telling { self.new.telling ≡ telling_by self.old.seen self.old.telling }
        ensures owed { self.new.links.now.holding
            ≡ owed_by self.old.seen self.old.links.now.holding }
        ensures held { self.new.links.now.held ≡ held_by self.old.seen self.old.links.now.held }
        ensures below { self.new.links.now.inner.now ≡ self.old.links.now.inner.now }
        ensures same { self.new.links.ghost_name ≡ self.old.links.ghost_name }
        ensures rest { self.new ≡ record self.old {
          links = self.new.links;
          telling = self.new.telling;
          seen = Seen.Nobody;
        } }
    {
        match mem::replace(&mut self.seen, Seen::Nobody) {
            Seen::Had(before) => Ok(before),
            Seen::Short => Err(OutOfMemory),
            Seen::Nobody => {
                self.links.forget();
                self.telling.begin();
                Ok(nothing(self.alloc))
            }
        }
    }

    /// A step is kept, and its frames come next. Each report that gives something up opens a number, which is owed from
    /// this reading on, and the parent hears the lines of the step. A refused call says nothing.
    pub fn give_up(&mut self, deed: &Deed, now: u64) -> Result<(), OutOfMemory>
        ensures known { OnOk result (self.old.seen ≢ Seen.Short) }
        ensures owed { OnOk result (self.new.links.now.holding
            ≡ owed_by self.old.seen self.old.links.now.holding
            ++ step_owed (had_by self.old.seen) deed.now.outcome.reports now (telling_by self.old.seen self.old.telling)
            deed.now.outcome.reports) }
        ensures said { OnOk result (Grew (P.said self.old.parent) (P.said self.new.parent)
            (step_text (had_by self.old.seen) deed.now.outcome.reports deed.now.head
            (telling_by self.old.seen self.old.telling) deed.now.outcome.reports)) }
        ensures refused { OnErr result (P.said self.new.parent ≡ P.said self.old.parent) }
        ensures telling { OnOk result (self.new.telling ≡ after_step (had_by self.old.seen) deed.now.outcome.reports
            (telling_by self.old.seen self.old.telling) deed.now.outcome.reports) }
        ensures held { self.new.links.now.held ≡ held_by self.old.seen self.old.links.now.held }
        ensures below { self.new.links.now.inner.now ≡ self.old.links.now.inner.now }
        ensures same { self.new.links.ghost_name ≡ self.old.links.ghost_name }
        ensures rest { self.new ≡ record self.old {
          links = self.new.links;
          parent = self.new.parent;
          telling = self.new.telling;
          seen = Seen.Nobody;
        } }
    {
        let before = self.take_seen()?;
        let step = StepOf {
            before: &before,
            head: &deed.head,
            told: deed.outcome.reports.as_slice(),
            reading: now,
        };
        let mut text = Vec::new(self.alloc);
        tell_step(self.links, &mut self.telling, &step, &mut text)?;
        self.parent.say(&text);
        Ok(())
    }
}
