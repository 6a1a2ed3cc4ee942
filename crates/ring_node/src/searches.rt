ghost use Rattle.std.specs.Prelude.{◌≡◌, ◌+◌, ◌<◌, ◌≤◌, List, OnErr, OnOk, Some, None, false, length, nat_lt};
ghost use Rattle.fabric_terms.specs.declared.report.Report.{Report};
ghost use Rattle.ring_node.specs.Nodes.{IsPatched, by, step};
ghost use Rattle.ring_route.specs.Routes.{point_of};
ghost use Rattle.ring_rules.specs.Commands.{seek_place};
ghost use Rattle.ring_rules.specs.Deeds.{counted, has_numbers};
ghost use Rattle.ring_rules.specs.Rings.{hop_limit};
ghost use Rattle.ring_rules.specs.Seeks.{find_by, found_received, hop_from, seek_on, seeks_own};

use crate::leave::whole_row;
use crate::node::RingNode;
use crate::reports::Reports;
use crate::tokens::Spent;
use fabric_terms::{Body, Outbox, Report};
use ring_points::{MAX_HOPS, MAX_READING, MAX_RING_REPORTS, OUTBOX_LIMIT, Point, Who};
use ring_route::Hop;

impl RingNode {
    /// Where the search for the point goes on from here.
    pub(crate) fn hop(&self, key: Point, skip: Option<u16>) -> Hop
        ensures { result ≡ hop_from self.now.ring key skip }
    {
        let holds = self.token.ranges().contains(key);
        self.routes.next(key, holds, skip, self.links.accused())
    }

    /// Whether the node looks for its place and the point is its own.
    pub(crate) fn seeks_own(&self, key: Point) -> bool
        ensures { result ≡ seeks_own self.now.ring key }
    {
        let own = self.point_of(self.links.me().actor);
        key.0 == own.0 && !self.is_routing() && self.target.is_some()
    }

    /// A Seek is answered to its origin, goes on, or ends here.
    pub(crate) fn hear_seek(
        &self,
        origin: Who,
        key: Point,
        hops: u8,
        out: &mut Outbox,
        told: &mut Reports,
    )
        requires room { length out.old < OUTBOX_LIMIT }
        requires place { length told.old < MAX_RING_REPORTS }
        ensures row { step self.now out.new told.new ≡ by
            (λ c w. counted w (seek_on origin key hops (hop_from w.ring key (Some origin.actor)) (nat_lt hops hop_limit)
            w)) (step self.now out.old told.old) }
        ensures few { length told.new ≤ length told.old + 1 }
        ensures short { length out.new ≤ length out.old + 1 }
    {
        match self.hop(key, Some(origin.actor)) {
            Hop::Here => {
                let holder = self.links.me();
                out.send(origin, Body::Found { key, holder });
            }
            Hop::To(next) if hops < MAX_HOPS => {
                let hops = hops + 1;
                out.send(next, Body::Seek { origin, key, hops });
            }
            Hop::Nowhere if hops < MAX_HOPS => told.push(Report::Nowhere(key)),
            _ => {}
        }
    }

    /// The holder of a point is reported, or asked for.
    pub(crate) fn find(&self, key: Point, out: &mut Outbox, told: &mut Reports)
        requires room { length out.old < OUTBOX_LIMIT }
        requires place { length told.old < MAX_RING_REPORTS }
        ensures row { step self.now out.new told.new ≡ by (λ c w. find_by key (hop_from w.ring key None) w)
            (step self.now out.old told.old) }
        ensures few { length told.new ≤ length told.old + 1 }
        ensures short { length out.new ≤ length out.old + 1 }
    {
        let me = self.links.me();
        match self.hop(key, None) {
            Hop::Here => told.push(Report::Found(key, me)),
            Hop::To(next) => {
                let origin = me;
                let hops = 1;
                out.send(next, Body::Seek { origin, key, hops });
            }
            Hop::Nowhere => told.push(Report::Nowhere(key)),
        }
    }

    /// Asks a member for the holder of the own point.
    pub(crate) fn seek_place(&self, member: u16, out: &mut Outbox)
        requires { length out.old < OUTBOX_LIMIT }
        ensures row { (told : List Report) →
            step self.now out.new told ≡ by (λ c. seek_place member) (step self.now out.old told) }
        ensures short { length out.new ≤ length out.old + 1 }
    {
        let origin = self.links.me();
        let to = Who {
            actor: member,
            instance: 0,
        };
        let key = self.point_of(origin.actor);
        out.send(
            to,
            Body::Seek {
                origin,
                key,
                hops: 0,
            },
        );
    }

    /// The holder of a point is reported; the holder of the own point is greeted by a node that looks for its place,
    /// and its search is over.
    #[tactic(auto, unfolding(ring_rules::specs::Seeks::found_received))]
    fn greet_holder(
        &mut self,
        now: u64,
        key: Point,
        holder: Who,
        out: &mut Outbox,
        told: &mut Reports,
    ) -> Result<(), Spent>
        requires now { now ≤ MAX_READING }
        requires room { length out.old < OUTBOX_LIMIT }
        requires place { length told.old < MAX_RING_REPORTS }
        ensures ok { OnOk result (step self.new out.new told.new ≡ by (λ c. found_received c now key holder)
            (step self.old out.old told.old)) }
        ensures err { OnErr result (has_numbers
            (found_received self.old.settings now key holder (step self.old out.old told.old).work).ring ≡ false) }
        ensures kept { OnErr result (IsPatched (step self.old out.old told.old) (step self.new out.new told.new)) }
        ensures few { length told.new ≤ length told.old + 1 }
        ensures short { length out.new ≤ length out.old + 1 }
    {
        told.push(Report::Found(key, holder));
        if !self.seeks_own(key) {
            return Ok(());
        }
        match self.greet_plainly(holder.actor, now, out) {
            Ok(()) => {
                self.target = None;
                Ok(())
            }
            Err(spent) => Err(spent),
        }
    }

    /// The row of a Found.
    pub(crate) fn hear_found(
        &mut self,
        now: u64,
        key: Point,
        holder: Who,
        out: &mut Outbox,
        told: &mut Reports,
    )
        requires now { now ≤ MAX_READING }
        requires room { length out.old < OUTBOX_LIMIT }
        requires place { length told.old + 1 < MAX_RING_REPORTS }
        ensures row { step self.new out.new told.new ≡ by (λ c w. counted w (found_received c now key holder w))
            (step self.old out.old told.old) }
        ensures few { length told.new ≤ length told.old + 1 }
        ensures short { length out.new ≤ length out.old + 1 }
    {
        whole_row!(
            self,
            out,
            told,
            self.greet_holder(now, key, holder, out, told)
        )
    }
}
