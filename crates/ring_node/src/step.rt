ghost use Rattle.std.specs.Prelude.{◌≡◌, ◌+◌, ◌<◌, ◌≤◌, ◌++◌, [], IsTrue, length};
ghost use Rattle.ring_node.specs.Nodes.{by, step};
ghost use Rattle.ring_node.specs.Owned.{own_since, owned_of, owns_same};
ghost use Rattle.ring_node.specs.Steps.{acted, is_sound_input, taken};
ghost use Rattle.ring_rules.specs.Steps.{input_taken};
ghost use Rattle.ring_node.specs.Limits.{most_fired_messages, most_fired_reports};

use crate::node::RingNode;
use crate::ownership::{Owned, keep_ranges, same_fence, same_ranges};
use crate::reports::Reports;
use fabric_terms::{Outbox, Report, Why};
use ring_points::{MAX_READING, MAX_RING_REPORTS, OUTBOX_LIMIT};
use ring_rules::Input;

impl RingNode {
    /// What the node owns now, to tell later what has changed.
    pub fn owned(&self) -> Owned
        ensures { result ≡ owned_of self.now }
    {
        Owned {
            ranges: self.token.ranges().copy(),
            fence: self.links.fence(),
            left: self.is_left(),
        }
    }

    fn owns_same(&self, before: &Owned) -> bool
        ensures { result ≡ owns_same before.now self.now }
    {
        same_ranges(before.ranges.intervals(), self.token.ranges().intervals())
            && same_fence(before.fence, self.links.fence())
            && (before.left || !self.is_left())
    }

    /// Makes what was owned what the node owns now. Ranges that are the same are not copied.
    pub fn keep_owned(&self, owned: &mut Owned)
        ensures { owned.new ≡ owned_of self.now }
    {
        keep_ranges(&mut owned.ranges, self.token.ranges());
        owned.fence = self.links.fence();
        owned.left = self.is_left();
    }

    /// Tells what the node owns, where the ranges or the fence are others than before, or the node has left since. From
    /// here on that is what it owned before.
    pub fn tell_own(&self, owned: &mut Owned, told: &mut Reports)
        requires { length told.old < MAX_RING_REPORTS }
        ensures own { told.new ≡ told.old ++ own_since owned.old self.now }
        ensures kept { owned.new ≡ owned_of self.now }
        ensures few { length told.new ≤ length told.old + 1 }
    {
        // Most often nothing has changed, and then the ranges are compared once.
        if self.owns_same(owned) {
            owned.left = self.is_left();
            return;
        }
        told.push(Report::Own(self.token.ranges().copy(), self.links.fence()));
        self.keep_owned(owned);
    }

    /// The row of the input.
    fn input(&mut self, now: u64, input: &Input, out: &mut Outbox, told: &mut Reports)
        requires now { now ≤ MAX_READING }
        requires sound { IsTrue (is_sound_input input.now) }
        requires sent { length out.old ≡ 0 }
        requires told { length told.old ≡ 0 }
        ensures row { step self.new out.new told.new ≡ by (λ c. input_taken c now input.now)
            (step self.old out.old told.old) }
        ensures few { length told.new ≤ most_fired_reports }
        ensures short { length out.new ≤ most_fired_messages }
    {
        match input {
            Input::Fire => self.fire(now, out, told),
            Input::Frame(message) => self.hear(now, message, out, told),
            Input::Do(command) => self.command(now, command, out, told),
        }
    }

    /// The step of an input, but for what is owned, which `tell_own` tells last. The outbox and the reports are empty
    /// before it, the reading is at most `MAX_READING`, and a frame is in the grammar.
    #[tactic(auto, unfolding(ring_rules::specs::Steps::ring_step))]
    pub fn advance(&mut self, now: u64, input: &Input, out: &mut Outbox, told: &mut Reports)
        requires now { now ≤ MAX_READING }
        requires sound { IsTrue (is_sound_input input.now) }
        requires sent { out.old ≡ [] }
        requires told { told.old ≡ [] }
        ensures step { step self.new out.new told.new ≡ taken now input.now self.old }
        ensures few { length told.new ≤ most_fired_reports }
        ensures short { length out.new ≤ most_fired_messages }
    {
        if self.is_left() {
            return;
        }
        // Past the fence others may hold what this node held: it leaves before it does anything else.
        if self.is_past(now) {
            self.leave(Why::Fence, out, told);
            return;
        }
        self.input(now, input, out, told);
    }

    /// The step of an input: the row of the rules, and at last what is owned, where that has changed or the node has
    /// left. The outbox is empty before it, the reading is at most `MAX_READING`, and a frame is in the grammar. It
    /// sends at most `OUTBOX_LIMIT` messages and makes at most `MAX_RING_REPORTS` reports.
    pub fn step(&mut self, now: u64, input: &Input, out: &mut Outbox) -> Reports
        requires now { now ≤ MAX_READING }
        requires sound { IsTrue (is_sound_input input.now) }
        requires sent { out.old ≡ [] }
        ensures step { step self.new out.new result ≡ acted now input.now self.old }
        ensures messages { length out.new ≤ OUTBOX_LIMIT }
        ensures reports { length result ≤ MAX_RING_REPORTS }
    {
        let mut owned = self.owned();
        let mut told = Reports::new();
        self.advance(now, input, out, &mut told);
        self.tell_own(&mut owned, &mut told);
        told
    }
}
