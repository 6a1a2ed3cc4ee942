ghost use Rattle.std.specs.Prelude.{◌≡◌, ◌+◌, ◌≤◌, ℕ, IsTrue, false, length, true};
ghost use Rattle.link_core.specs.Frames.{is_ack, may_come};
ghost use Rattle.link_core.specs.Ties.{is_search};
ghost use Rattle.ring_node.specs.Nodes.{Rings, by, step};
ghost use Rattle.ring_rules.specs.Deeds.{counted};
ghost use Rattle.ring_rules.specs.Frames.{frame_row};
ghost use Rattle.link_core.specs.Limits.{most_row_messages};
ghost use Rattle.ring_node.specs.Limits.{most_slot_messages, most_slot_reports};

use crate::cause::Cause;
use crate::leave::whole_row;
use crate::node::{RingNode, announced};
use crate::reports::Reports;
use fabric_terms::{Message, Outbox};
use ring_points::{MAX_READING, MAX_RING_REPORTS, OUTBOX_LIMIT};

impl RingNode {
    /// The row of a frame of links, or of a ruling.
    pub(crate) fn hear_link(
        &mut self,
        now: u64,
        message: &Message,
        out: &mut Outbox,
        told: &mut Reports,
    )
        requires now { now ≤ MAX_READING }
        requires frame { IsTrue (may_come self.old.settings.arbitrators message.now.from message.now.body) }
        requires link { is_search message.now.body ≡ false }
        requires room { length out.old + most_row_messages ≤ OUTBOX_LIMIT }
        requires place { length told.old + most_slot_reports ≤ MAX_RING_REPORTS }
        ensures row { step self.new out.new told.new ≡ by
            (λ c w. counted w (frame_row c now message.now.from message.now.body w)) (step self.old out.old told.old) }
        ensures few { length told.new ≤ length told.old + most_slot_reports }
        ensures short { length out.new ≤ length out.old + most_slot_messages }
    {
        whole_row!(
            self,
            out,
            told,
            {
                let announce = announced(&self.token, &self.phase);
                let notes = self.links.hear(now, message, &announce, out);
                let cause = Cause::of(&message.body);
                self.notes(&cause, notes.as_slice(), out, told)
            }
        )
    }

    /// The row of an acknowledgement of a renewal. It leaves no notes to do.
    pub(crate) fn hear_ack(&mut self, message: &Message)
        requires ack { is_ack message.now.body ≡ true }
        requires frame { IsTrue (may_come self.old.settings.arbitrators message.now.from message.now.body) }
        ensures { (now : ℕ) → Rings
            (λ c w. counted w (frame_row c now message.now.from message.now.body w)) self.old self.new }
    {
        prove!(self.has_numbers());
        self.links.acknowledged(message);
        // The number of the next session is within its bound, as ever.
        prove!(self.links.last_session() <= u32::MAX);
        prove!(self.has_numbers());
    }
}
