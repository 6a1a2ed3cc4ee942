ghost use Rattle.std.specs.Prelude.{◌≡◌, ◌<◌, ◌≤◌, ◌+◌, [], None, length, take};
ghost use Rattle.ring_rules.specs.Rings.{no_slots};
ghost use Rattle.ring_rules.specs.Slots.{fence_of};
ghost use Rattle.link_core.specs.Calls.{call_in, flight_sent, flight_taken, no_links, slot_closed};
ghost use Rattle.link_core.specs.Links.{did, did_after, with_slot};

mod again;
mod dispatch;
mod opening;
mod ruling_frames;
mod session_frames;
mod slot_firing;

use crate::deadlines::{Deadlines, change};
use crate::flight;
use again::free_each;
use arrayvec::ArrayVec;
use drift_clock::Bound;
use fabric_terms::Outbox;
use ring_points::{
    Flight, MAX_ARBITRATORS, MAX_DRIFT, MAX_GRAIN, MAX_LEASE, MAX_ROUNDS, OUTBOX_LIMIT, Who,
};
use ring_rules::Link;
use std::marker::Model;

/// How many slots a node has.
pub const SLOTS: usize = 16;

/// How many instances a node can accuse.
pub const MAX_ACCUSED: usize = 1024;

/// The links of a node: its slots, the number of its next session, and whom it has accused. Contracts see it as the
/// record `Links`.
#[derive(Drop)]
pub struct Links16 {
    me: Who,
    lease: u64,
    longest: u64,
    answer: u64,
    bound: Bound,
    arbitrators: u8,
    rounds: u8,
    slots: [Option<Link>; SLOTS],
    deadlines: Deadlines,
    last_session: u32,
    accused: ArrayVec<Who, MAX_ACCUSED>,
}

impl Model for Links16 {
    ghost use Rattle.std.specs.Prelude.{◌+◌};
    ghost use Rattle.link_core.specs.Links.{Links};
    ghost use Rattle.link_core.specs.Sound.{AreKept};

    ghost Value = { Links };

    ghost view = { λ k. record {
      me = k.me;
      lease = k.lease;
      longest = k.longest;
      answer = k.answer;
      bound = k.bound;
      arbitrators = k.arbitrators;
      rounds = k.rounds;
      slots = k.slots;
      next_session = k.last_session + 1;
      accused = k.accused.items;
    } };

    ghost invariant = { λ k. AreKept (record {
      me = k.me;
      lease = k.lease;
      longest = k.longest;
      answer = k.answer;
      bound = k.bound;
      arbitrators = k.arbitrators;
      rounds = k.rounds;
      slots = k.slots;
      next_session = k.last_session + 1;
      accused = k.accused.items;
    }) k.deadlines };
}

fn free_slots() -> [Option<Link>; SLOTS]
    ensures { result ≡ no_slots }
{
    [
        None, None, None, None, None, None, None, None, None, None, None, None, None, None, None,
        None,
    ]
}

impl Links16 {
    /// No links. `lease` is the lease of a link that names no length, and `longest` the longest lease that is granted.
    /// Each of them, and the time for an answer, is at most `MAX_LEASE` ticks.
    pub fn new(
        me: Who,
        lease: u64,
        longest: u64,
        answer: u64,
        bound: Bound,
        arbitrators: u8,
        rounds: u8,
    ) -> Links16
        requires lease { lease ≤ MAX_LEASE }
        requires longest { longest ≤ MAX_LEASE }
        requires answer { answer ≤ MAX_LEASE }
        requires drift { bound.d ≤ MAX_DRIFT }
        requires grain { bound.grain ≤ MAX_GRAIN }
        requires arbitrators { arbitrators ≤ MAX_ARBITRATORS }
        requires rounds { rounds ≤ MAX_ROUNDS }
        ensures { result ≡ no_links me lease longest answer bound arbitrators rounds }
    {
        Links16 {
            me,
            lease,
            longest,
            answer,
            bound,
            arbitrators,
            rounds,
            slots: free_slots(),
            deadlines: Deadlines::none(),
            last_session: 0,
            accused: ArrayVec::new(),
        }
    }

    /// Whose links they are.
    pub fn me(&self) -> Who
        ensures { result ≡ self.now.me }
    {
        self.me
    }

    /// The lease of a link that names no length, in ticks.
    pub fn lease(&self) -> u64
        ensures value { result ≡ self.now.lease }
        ensures short { result ≤ MAX_LEASE }
    {
        self.lease
    }

    /// How many arbitrators there are.
    pub fn arbitrators(&self) -> u8
        ensures value { result ≡ self.now.arbitrators }
        ensures few { result ≤ MAX_ARBITRATORS }
    {
        self.arbitrators
    }

    /// The instances that the node has accused, in order.
    pub fn accused(&self) -> &[Who]
        ensures { result.now ≡ self.now.accused }
    {
        self.accused.as_slice()
    }

    /// The slots.
    pub fn slots(&self) -> &[Option<Link>; SLOTS]
        ensures { result.now ≡ self.now.slots }
    {
        &self.slots
    }

    /// The reading from which on the node holds nothing: the least end of a lease, and the time for an answer.
    pub fn fence(&self) -> Option<u64>
        ensures { result ≡ fence_of self.now.answer self.now.slots }
    {
        match self.deadlines.first() {
            Some(end) => Some(end + self.answer),
            None => None,
        }
    }

    /// A flight of this number was taken from the peer of the slot.
    pub fn took(&mut self, slot: usize, number: u32)
        requires { slot < SLOTS }
        ensures { did self.new [] [] ≡ call_in slot (flight_taken number) self.old }
    {
        change!(self, slot, place => flight::took(place, number))
    }

    /// A flight stands in the slot, and goes to its peer.
    pub fn put_flight(&mut self, slot: usize, flight: &Flight, out: &mut Outbox)
        requires slot { slot < SLOTS }
        requires room { length out.old < OUTBOX_LIMIT }
        ensures { did self.new out.new [] ≡ did_after out.old (call_in slot (flight_sent flight.now) self.old) }
    {
        change!(self, slot, place => flight::put_flight(place, flight, out))
    }

    /// The slot ends, and its peer gets its answer if it wants one.
    pub fn close(&mut self, slot: usize, bound: bool, out: &mut Outbox)
        requires slot { slot < SLOTS }
        requires room { length out.old < OUTBOX_LIMIT }
        ensures { did self.new out.new [] ≡ did_after out.old (call_in slot (slot_closed bound) self.old) }
    {
        change!(self, slot, place => flight::close(place, bound, out))
    }

    /// The number of the last session, 0 where there was none.
    pub fn last_session(&self) -> u32
        ensures { result + 1 ≡ self.now.next_session }
    {
        self.last_session
    }

    /// Every slot is free, as of a node that leaves; of the sessions and the accusations only those up to these
    /// numbers count.
    pub fn leave(&mut self, last_session: u32, accused: usize)
        requires { last_session < self.old.next_session }
        ensures { self.new ≡ record self.old {
          slots = no_slots;
          next_session = last_session + 1;
          accused = take accused self.old.accused;
        } }
    {
        free_each(&mut self.slots);
        self.deadlines.clear();
        self.last_session = last_session;
        self.accused.truncate(accused);
    }

    /// The slot is free.
    pub fn drop_slot(&mut self, slot: usize)
        requires { slot < SLOTS }
        ensures { self.new ≡ with_slot slot None self.old }
    {
        change!(self, slot, place => *place = None)
    }
}
