ghost use Rattle.std.specs.Prelude.{◌≡◌, ◌<◌, ◌≤◌, ◌+◌, ℕ, IsTrue, List, [], length, true};
ghost use Rattle.fabric_terms.specs.declared.message.Body.{Body as Said};
ghost use Rattle.link_core.specs.Frames.{flight_row, frame_row, is_ack, may_come, renewal_row, ruling_row};
ghost use Rattle.link_core.specs.declared.announce.Announce.{Announce as Announcement};
ghost use Rattle.link_core.specs.Links.{did, did_after};
ghost use Rattle.link_core.specs.Outcomes.{FrameHeard};
ghost use Rattle.link_core.specs.Limits.{most_row_messages};
ghost use Rattle.ring_points.specs.declared.who.Who.{Who};

use crate::announce::{Announce, Announced};
use crate::links::Links16;
use crate::links::opening::Beginning;
use crate::links::session_frames::Session;
use crate::notes::{LinkNotes, no_notes};
use crate::renewal::Renewal;
use fabric_terms::{Body, Message, Outbox};
use ring_points::{MAX_ARBITRATORS, MAX_READING, OUTBOX_LIMIT};

impl Links16 {
    /// What a frame of a link does, or an arbitrator's ruling; a frame of another kind does nothing. The frame is one
    /// that the node takes: its stamp is a reading, and a ruling is of a configured arbitrator.
    pub fn on_frame(
        &mut self,
        now: u64,
        message: &Message,
        announce: &Announce,
        out: &mut Outbox,
    ) -> LinkNotes
        requires now { now ≤ MAX_READING }
        requires frame { IsTrue (may_come self.old.arbitrators message.now.from message.now.body) }
        requires room { length out.old + most_row_messages ≤ OUTBOX_LIMIT }
        ensures { FrameHeard now announce.now message.now self.old out.old (did self.new out.new result) }
    {
        self.hear(now, message, &Announced::of(announce), out)
    }

    /// As `on_frame`, with the ranges where they lie.
    pub fn hear(
        &mut self,
        now: u64,
        message: &Message,
        announce: &Announced,
        out: &mut Outbox,
    ) -> LinkNotes
        requires now { now ≤ MAX_READING }
        requires frame { IsTrue (may_come self.old.arbitrators message.now.from message.now.body) }
        requires room { length out.old + most_row_messages ≤ OUTBOX_LIMIT }
        ensures { FrameHeard now announce.now message.now self.old out.old (did self.new out.new result) }
    {
        // So a frame is answered by no more frames than there is room for.
        prove!(usize::from(self.arbitrators) <= MAX_ARBITRATORS);
        self.frame(now, message, announce, out)
    }

    /// As `hear`, for an acknowledgement of a renewal. It sends nothing and leaves no notes, so that no list of notes is
    /// made for it.
    pub fn acknowledged(&mut self, message: &Message)
        requires ack { is_ack message.now.body ≡ true }
        requires frame { IsTrue (may_come self.old.arbitrators message.now.from message.now.body) }
        ensures { (now : ℕ) (a : Announcement) (sent : List (Who × Said)) →
            FrameHeard now a message.now self.old sent (did self.new sent []) }
    {
        prove!(usize::from(self.arbitrators) <= MAX_ARBITRATORS);
        match &message.body {
            Body::RenewAck {
                mine,
                yours,
                stamp,
                version,
            } => self.hear_ack(Session::new(message.from, *mine, *yours), *stamp, *version),
            _ => unreachable!(),
        }
    }

    /// The row of a frame: here that of a greeting and of its answers. Another frame goes to the function of its family,
    /// and one of no family does nothing.
    fn frame(
        &mut self,
        now: u64,
        message: &Message,
        announce: &Announced,
        out: &mut Outbox,
    ) -> LinkNotes
        requires now { now ≤ MAX_READING }
        requires frame { IsTrue (may_come self.old.arbitrators message.now.from message.now.body) }
        requires room { length out.old + most_row_messages ≤ OUTBOX_LIMIT }
        ensures { did self.new out.new result ≡ did_after out.old
            (frame_row now announce.now message.now.from message.now.body self.old) }
    {
        let from = message.from;
        match &message.body {
            Body::Hello { mine } => {
                self.hear_hello(from, *mine, Beginning::offered(now, 1, self.lease), out)
            }
            Body::HelloFor { mine, length } => {
                let len = (*length).min(self.longest);
                self.hear_hello(from, *mine, Beginning::offered(now, 2, len), out)
            }
            Body::Offer { mine, yours } => {
                self.hear_offer(now, Session::new(from, *mine, *yours), self.lease, out)
            }
            Body::OfferFor {
                mine,
                yours,
                length,
            } => self.hear_offer(now, Session::new(from, *mine, *yours), *length, out),
            Body::Take { mine, yours } => {
                self.hear_take(now, Session::new(from, *mine, *yours), announce, out)
            }
            Body::Renew { .. } | Body::RenewAck { .. } => self.renewal_frame(message, out),
            Body::Transfer { .. } | Body::Gone { .. } => self.flight_frame(message, out),
            Body::Ruled { .. } | Body::Kept { .. } => self.ruling_frame(now, message, out),
            _ => no_notes(),
        }
    }

    /// The row of a renewal, and of its answer.
    fn renewal_frame(&mut self, message: &Message, out: &mut Outbox) -> LinkNotes
        requires frame { IsTrue (may_come self.old.arbitrators message.now.from message.now.body) }
        requires room { length out.old < OUTBOX_LIMIT }
        ensures { did self.new out.new result ≡ did_after out.old
            (renewal_row message.now.from message.now.body self.old) }
    {
        let from = message.from;
        match &message.body {
            Body::Renew {
                mine,
                yours,
                stamp,
                version,
                got,
                want,
                ranges,
            } => {
                let renewal = Renewal {
                    stamp: *stamp,
                    version: *version,
                    got: *got,
                    want: *want,
                    ranges,
                };
                self.hear_renew(Session::new(from, *mine, *yours), &renewal, out)
            }
            Body::RenewAck {
                mine,
                yours,
                stamp,
                version,
            } => {
                self.hear_ack(Session::new(from, *mine, *yours), *stamp, *version);
                no_notes()
            }
            _ => no_notes(),
        }
    }

    /// The row of a flight, and of the end of a session.
    fn flight_frame(&mut self, message: &Message, out: &mut Outbox) -> LinkNotes
        requires { length out.old < OUTBOX_LIMIT }
        ensures { did self.new out.new result ≡ did_after out.old
            (flight_row message.now.from message.now.body self.old) }
    {
        let from = message.from;
        match &message.body {
            Body::Transfer {
                mine,
                yours,
                flight,
                ..
            } => self.hear_transfer(Session::new(from, *mine, *yours), *flight, out),
            Body::Gone {
                mine,
                yours,
                got,
                bound,
            } => self.hear_gone(Session::new(from, *mine, *yours), *got, *bound, out),
            _ => no_notes(),
        }
    }

    /// The row of an arbitrator's answer.
    fn ruling_frame(&mut self, now: u64, message: &Message, out: &mut Outbox) -> LinkNotes
        requires now { now ≤ MAX_READING }
        requires frame { IsTrue (may_come self.old.arbitrators message.now.from message.now.body) }
        requires room { length out.old + most_row_messages ≤ OUTBOX_LIMIT }
        ensures { did self.new out.new result ≡ did_after out.old
            (ruling_row now message.now.from message.now.body self.old) }
    {
        let from = message.from;
        match &message.body {
            Body::Ruled { victim, ruling } => self.hear_ruling(now, from, *victim, *ruling),
            Body::Kept {
                victim,
                round,
                claimer,
            } => self.hear_kept(now, from, *victim, (*round, *claimer), out),
            _ => no_notes(),
        }
    }
}
