ghost use Rattle.std.specs.Prelude.{◌≡◌, ◌+◌, ◌<◌, ◌≤◌, ◌++◌, ◌∷◌, [], length, take};
ghost use Rattle.fabric_terms.specs.declared.report.Report.TheVariants.{LeftRing};
ghost use Rattle.ring_node.specs.Nodes.{left_at, step, by};
ghost use Rattle.ring_rules.specs.Deeds.{leave};

use crate::node::{Mark, RingNode};
use crate::reports::Reports;
use fabric_terms::{Outbox, Report, Why};
use ring_points::MAX_RING_REPORTS;

/// A row is done whole: one that breaks off for want of a number is not done at all, and the node leaves.
macro_rules! whole_row {
    ($node:expr, $out:expr, $told:expr, $row:expr) => {{
        let mark = $node.mark($out, $told);
        match $row {
            Ok(()) => prove!($node.has_numbers()),
            Err(_) => $node.roll_back(mark, $out, $told),
        }
    }};
}

pub(crate) use whole_row;

impl RingNode {
    /// The node leaves, as it was before a row: it owns nothing and has no links any more.
    pub(crate) fn leave_at(&mut self, why: Why, mark: Mark)
        requires version { mark.version ≤ self.old.ring.token.version }
        requires sessions { mark.last_session < self.old.ring.next_session }
        ensures { self.new ≡ left_at why mark.version mark.last_session mark.accused self.old }
    {
        self.links.leave(mark.last_session, mark.accused);
        self.token.leave(mark.version);
        self.phase.leave(why);
    }

    /// The node leaves.
    pub(crate) fn leave(&mut self, why: Why, out: &Outbox, told: &mut Reports)
        requires { length told.old < MAX_RING_REPORTS }
        ensures { step self.new out.now told.new ≡ by (λ c. leave why) (step self.old out.now told.old) }
    {
        let mark = self.mark(out, told);
        self.leave_at(why, mark);
        told.push(Report::LeftRing(why));
    }

    /// A row breaks off for want of a number: nothing of it was done, and the node leaves.
    pub(crate) fn roll_back(&mut self, mark: Mark, out: &mut Outbox, told: &mut Reports)
        requires version { mark.version ≤ self.old.ring.token.version }
        requires sessions { mark.last_session < self.old.ring.next_session }
        requires place { mark.told < MAX_RING_REPORTS }
        ensures node { self.new ≡ left_at Why.Counters mark.version mark.last_session mark.accused self.old }
        ensures sent { out.new ≡ take mark.sent out.old }
        ensures told { told.new ≡ take mark.told told.old ++ LeftRing Why.Counters ∷ [] }
    {
        self.leave_at(Why::Counters, mark);
        out.truncate(mark.sent);
        told.truncate(mark.told);
        told.push(Report::LeftRing(Why::Counters));
    }
}
