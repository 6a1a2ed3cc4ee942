ghost use Rattle.std.specs.Prelude.{◌≡◌, ◌&&◌, IsTrue, not};
ghost use Rattle.join_phases.specs.Phases.{is_left};
ghost use Rattle.ring_rules.specs.Deeds.{has_numbers};
ghost use Rattle.ring_rules.specs.Owns.{holds_point, same_fence, same_ranges};
ghost use Rattle.ring_rules.specs.Slots.{fence_of, is_past};

use crate::node::RingNode;
use ring_points::{Interval, Point, RangeSet};

/// What a node owned at a moment, kept beside it from step to step, so that a step copies no ranges but those that
/// change.
#[derive(Drop)]
pub struct Owned {
    pub ranges: RangeSet,
    /// The reading from which on it held none of them.
    pub fence: Option<u64>,
    /// It had left the ring.
    pub left: bool,
}

pub(crate) fn same_ranges(one: &[Interval], other: &[Interval]) -> bool
    ensures { result ≡ same_ranges one.now other.now }
{
    one == other
}

/// Makes the kept ranges those of now. Most often they are, and then nothing is copied.
pub(crate) fn keep_ranges(kept: &mut RangeSet, now: &RangeSet)
    ensures { kept.new ≡ now.now }
{
    if same_ranges(kept.intervals(), now.intervals()) {
        return;
    }
    *kept = now.copy();
}

pub(crate) fn same_fence(one: Option<u64>, other: Option<u64>) -> bool
    ensures { result ≡ same_fence one other }
{
    one == other
}

impl RingNode {
    /// What the node owns, whether it still holds it or not.
    pub fn ranges(&self) -> &RangeSet
        ensures { result.now ≡ self.now.ring.token.ranges }
    {
        self.token.ranges()
    }

    /// The reading from which on the node holds nothing, if there is one.
    pub fn fence(&self) -> Option<u64>
        ensures { result ≡ fence_of self.now.settings.answer self.now.ring.slots }
    {
        self.links.fence()
    }

    /// The reading is at the fence or past it.
    pub(crate) fn is_past(&self, now: u64) -> bool
        ensures { result ≡ is_past now (fence_of self.now.settings.answer self.now.ring.slots) }
    {
        match self.links.fence() {
            Some(fence) => fence <= now,
            None => false,
        }
    }

    /// Whether the node still acts at this reading: it has not left, and is not past its fence.
    pub fn acts(&self, now: u64) -> bool
        ensures value { result ≡ (not (is_left self.now.ring.phase) &&
            not (is_past now (fence_of self.now.settings.answer self.now.ring.slots))) }
        ensures numbers { IsTrue (has_numbers self.now.ring) }
    {
        !self.is_left() && !self.is_past(now)
    }

    /// Whether the node holds the point at this reading: it owns the point and is not past its fence.
    pub fn holds(&self, now: u64, p: Point) -> bool
        ensures { result ≡ holds_point self.now.settings now p.0 self.now.ring }
    {
        self.token.ranges().contains(p) && !self.is_past(now)
    }
}
