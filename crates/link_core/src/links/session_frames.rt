ghost use Rattle.std.specs.Prelude.{◌≡◌, ◌<◌, ◌≤◌, ◌+◌, IfSome, None, [], ◌∷◌, ◌++◌, length, false};
ghost use Rattle.fabric_terms.specs.declared.message.Body.TheVariants as body;
ghost use Rattle.ring_rules.specs.Slots.{slot_where, of_session};
ghost use Rattle.link_core.specs.Flights.{gone_elsewhere, gone_received, transfer_received};
ghost use Rattle.link_core.specs.Handshakes.{accept, hello_received, offer_again, offer_received, take_received};
ghost use Rattle.link_core.specs.Links.{did, did_after, new_link, with_slot};
ghost use Rattle.link_core.specs.Renewals.{ack_received, renew_received};

use crate::announce::Announced;
use crate::deadlines::change;
use crate::links::opening::Beginning;
use crate::links::{Links16, SLOTS};
use crate::notes::{LinkNote, LinkNotes, no_notes, one_note};
use crate::renewal::{self, Renewal};
use crate::{bodies, find, flight, handshake};
use fabric_terms::{Outbox, Why};
use ring_points::{MAX_LEASE, MAX_READING, OUTBOX_LIMIT, Who};
use ring_rules::LinkState;

/// A session as a frame names it: its sender, the sender's number, and the own number.
#[derive(Clone, Copy)]
pub(crate) struct Session {
    pub from: Who,
    pub theirs: u32,
    pub own: u32,
}

impl Session {
    pub(crate) fn new(from: Who, theirs: u32, own: u32) -> Session
        ensures { result ≡ record { from = from; theirs = theirs; own = own } }
    {
        Session { from, theirs, own }
    }

    /// The answer where no slot has this session.
    fn say_unknown(self, out: &mut Outbox)
        requires { length out.old < OUTBOX_LIMIT }
        ensures { out.new ≡ out.old ++ (self.from, body.Gone self.own self.theirs 0 false) ∷ [] }
    {
        out.send(self.from, bodies::unknown(self.theirs, self.own));
    }
}

impl Links16 {
    fn session(&self, session: Session) -> Option<usize>
        ensures place { result ≡ slot_where (of_session session.from session.own session.theirs) self.now.slots }
        ensures inside { IfSome result (λ i. i < SLOTS) }
    {
        find::session(&self.slots, session.from, session.own, session.theirs)
    }

    /// Accepts a Hello by a new link, in the first free slot.
    fn accept(&mut self, from: Who, theirs: u32, asked: Beginning, out: &mut Outbox) -> LinkNotes
        requires now { asked.at ≤ MAX_READING }
        requires len { asked.len ≤ MAX_LEASE }
        requires room { length out.old < OUTBOX_LIMIT }
        ensures { did self.new out.new result ≡ did_after out.old
            (accept self.old self.old (new_link self.old asked.at from theirs asked.state asked.wire asked.len)) }
    {
        let Some(i) = find::free_place(&self.slots) else {
            return no_notes();
        };
        if self.is_spent() {
            return one_note(LinkNote::Leave(Why::Counters));
        }
        let link = self.new_link(from, theirs, asked);
        out.send(link.peer, bodies::offer(&link));
        self.begin(i, link);
        no_notes()
    }

    /// Accepts a Hello in place of the own one in this slot.
    fn cross(
        &mut self,
        i: usize,
        from: Who,
        theirs: u32,
        asked: Beginning,
        out: &mut Outbox,
    ) -> LinkNotes
        requires inside { i < length self.old.slots }
        requires now { asked.at ≤ MAX_READING }
        requires len { asked.len ≤ MAX_LEASE }
        requires room { length out.old < OUTBOX_LIMIT }
        ensures { did self.new out.new result ≡ did_after out.old
            (accept self.old (with_slot i None self.old)
            (new_link self.old asked.at from theirs asked.state asked.wire asked.len)) }
    {
        if self.is_spent() {
            return one_note(LinkNote::Leave(Why::Counters));
        }
        change!(self, i, slot => *slot = None);
        self.accept(from, theirs, asked, out)
    }

    /// A Hello: one that was accepted before gets its Offer again; one that crosses the own Hello counts where the
    /// own node is the higher one; another is accepted.
    pub(crate) fn hear_hello(
        &mut self,
        from: Who,
        theirs: u32,
        asked: Beginning,
        out: &mut Outbox,
    ) -> LinkNotes
        requires now { asked.at ≤ MAX_READING }
        requires len { asked.len ≤ MAX_LEASE }
        requires state { asked.state ≡ LinkState.Offered }
        requires room { length out.old < OUTBOX_LIMIT }
        ensures { did self.new out.new result ≡ did_after out.old
            (hello_received asked.at from theirs asked.wire asked.len self.old) }
    {
        if let Some(i) = find::instance(&self.slots, from) {
            change!(self, i, slot => handshake::hello_repeated(slot, theirs, out));
            return no_notes();
        }
        match find::greeting(&self.slots, from.actor) {
            None => self.accept(from, theirs, asked, out),
            Some(_) if self.me.actor < from.actor => no_notes(),
            Some(i) => self.cross(i, from, theirs, asked, out),
        }
    }

    /// An Offer that no greeting waits for.
    pub(crate) fn hear_offer_again(&mut self, session: Session, out: &mut Outbox)
        requires { length out.old < OUTBOX_LIMIT }
        ensures { did self.new out.new [] ≡ did_after out.old
            (offer_again session.from session.theirs session.own self.old) }
    {
        match self.session(session) {
            Some(i) => change!(self, i, slot => handshake::offer_repeated(slot, out)),
            None => session.say_unknown(out),
        }
    }

    /// An Offer with this length.
    pub(crate) fn hear_offer(
        &mut self,
        now: u64,
        session: Session,
        len: u64,
        out: &mut Outbox,
    ) -> LinkNotes
        requires now { now ≤ MAX_READING }
        requires room { length out.old < OUTBOX_LIMIT }
        ensures { did self.new out.new result ≡ did_after out.old
            (offer_received now session.from session.theirs session.own len self.old) }
    {
        if let Some(i) = find::greeting_of(&self.slots, session.from.actor, session.own) {
            let (from, theirs) = (session.from, session.theirs);
            return change!(self, i, slot => handshake::offer_taken(slot, now, from, theirs, len, out));
        }
        self.hear_offer_again(session, out);
        no_notes()
    }

    /// A Take.
    pub(crate) fn hear_take(
        &mut self,
        now: u64,
        session: Session,
        announce: &Announced,
        out: &mut Outbox,
    ) -> LinkNotes
        requires room { length out.old < OUTBOX_LIMIT }
        ensures { did self.new out.new result ≡ did_after out.old
            (take_received now announce.now session.from session.theirs session.own self.old) }
    {
        match self.session(session) {
            Some(i) => change!(self, i, slot => handshake::take_seen(slot, now, announce, out)),
            None => {
                session.say_unknown(out);
                no_notes()
            }
        }
    }

    /// A Renew.
    pub(crate) fn hear_renew(
        &mut self,
        session: Session,
        renewal: &Renewal,
        out: &mut Outbox,
    ) -> LinkNotes
        requires room { length out.old < OUTBOX_LIMIT }
        ensures { did self.new out.new result ≡ did_after out.old
            (renew_received session.from session.theirs session.own renewal.now.stamp renewal.now.version
            renewal.now.got renewal.now.want renewal.now.ranges.now self.old) }
    {
        match self.session(session) {
            Some(i) => change!(self, i, slot => renewal::renew_seen(i, slot, renewal, out)),
            None => {
                session.say_unknown(out);
                no_notes()
            }
        }
    }

    /// A RenewAck.
    pub(crate) fn hear_ack(&mut self, session: Session, stamp: u64, version: u32)
        requires { stamp ≤ MAX_READING }
        ensures { did self.new [] [] ≡ ack_received session.from session.theirs session.own stamp version self.old }
    {
        if let Some(i) = self.session(session) {
            change!(self, i, slot => renewal::ack_seen(slot, stamp, version))
        }
    }

    /// A Transfer.
    pub(crate) fn hear_transfer(
        &mut self,
        session: Session,
        number: u32,
        out: &mut Outbox,
    ) -> LinkNotes
        requires { length out.old < OUTBOX_LIMIT }
        ensures { did self.new out.new result ≡ did_after out.old
            (transfer_received session.from session.theirs session.own number self.old) }
    {
        match self.session(session) {
            Some(i) => change!(self, i, slot => flight::transfer_seen(i, slot, number, out)),
            None => {
                session.say_unknown(out);
                no_notes()
            }
        }
    }

    /// A Gone in no session: a slot that greets by this number ends, and the sender gets its answer if it wants one.
    pub(crate) fn hear_gone_elsewhere(&mut self, session: Session, bound: bool, out: &mut Outbox)
        requires { length out.old < OUTBOX_LIMIT }
        ensures { did self.new out.new [] ≡ did_after out.old
            (gone_elsewhere session.from session.theirs session.own bound self.old) }
    {
        if let Some(i) = find::greeting_by(&self.slots, session.own) {
            self.drop_slot(i);
        }
        let gone = bodies::unknown(session.theirs, session.own);
        bodies::answer(bound, session.from, gone, out);
    }

    /// A Gone.
    pub(crate) fn hear_gone(
        &mut self,
        session: Session,
        got: u32,
        bound: bool,
        out: &mut Outbox,
    ) -> LinkNotes
        requires { length out.old < OUTBOX_LIMIT }
        ensures { did self.new out.new result ≡ did_after out.old
            (gone_received session.from session.theirs session.own got bound self.old) }
    {
        match self.session(session) {
            Some(i) => change!(self, i, slot => flight::gone_seen(i, slot, got, bound, out)),
            None => {
                self.hear_gone_elsewhere(session, bound, out);
                no_notes()
            }
        }
    }
}
