ghost use Rattle.std.specs.Prelude.{◌≡◌, ◌<◌, ◌≤◌, ◌+◌, OnErr, false, length, IfSome};
ghost use Rattle.ring_rules.specs.Slots.{slot_where, of_node, may_part};
ghost use Rattle.link_core.specs.Calls.{call_after, hello_call, outcome, part_call};
ghost use Rattle.link_core.specs.Handshakes.{greeting_for};
ghost use Rattle.link_core.specs.Links.{is_spent, new_link, with_session};
ghost use Rattle.link_core.specs.Sound.{IsSoundLink};

use crate::deadlines::change;
use crate::links::{Links16, SLOTS};
use crate::part::part;
use crate::refusal::LinkRefusal;
use crate::{bodies, find};
use arbiter_quorum::Tally;
use fabric_terms::Outbox;
use heir_rounds::RoundTally;
use ring_points::{MAX_LEASE, MAX_READING, OUTBOX_LIMIT, RangeSet, Who};
use ring_rules::{Link, LinkState};

/// How a link begins: at which reading, in which state, by which frame version and for which length.
#[derive(Clone, Copy)]
pub(crate) struct Beginning {
    pub at: u64,
    pub state: LinkState,
    pub wire: u8,
    pub len: u64,
}

impl Beginning {
    /// An offer, in answer to a Hello by this frame version, for this length.
    pub(crate) fn offered(at: u64, wire: u8, len: u64) -> Beginning
        ensures { result ≡ record { at = at; state = LinkState.Offered; wire = wire; len = len } }
    {
        Beginning {
            at,
            state: LinkState::Offered,
            wire,
            len,
        }
    }
}

impl Links16 {
    /// No number of a session is left.
    pub(crate) fn is_spent(&self) -> bool
        ensures { result ≡ is_spent self.now }
    {
        self.last_session == u32::MAX
    }

    /// A link that begins so.
    pub(crate) fn new_link(&self, peer: Who, theirs: u32, beginning: Beginning) -> Link
        requires now { beginning.at ≤ MAX_READING }
        requires len { beginning.len ≤ MAX_LEASE }
        requires left { is_spent self.now ≡ false }
        ensures value { result ≡ new_link self.now beginning.at peer theirs beginning.state beginning.wire
            beginning.len }
        ensures sound { IsSoundLink self.now.arbitrators result }
    {
        Link {
            peer,
            mine: self.last_session + 1,
            yours: theirs,
            state: beginning.state,
            until: beginning.at + beginning.len,
            ripe: 0,
            acked: 0,
            held: RangeSet::new(),
            held_version: 0,
            got: 0,
            flight: None,
            tally: Tally::new(self.me, peer, self.arbitrators),
            rounds: RoundTally::new(self.me, self.arbitrators, self.rounds),
            len: beginning.len,
            wire: beginning.wire,
        }
    }

    /// The link begins in this place, and the number of its session is used up.
    pub(crate) fn begin(&mut self, i: usize, link: Link)
        requires inside { i < SLOTS }
        requires left { is_spent self.old ≡ false }
        requires sound { IsSoundLink self.old.arbitrators link }
        ensures { self.new ≡ with_session i link self.old }
    {
        change!(self, i, slot => *slot = Some(link));
        self.last_session += 1;
    }

    fn greeting_for(&self, now: u64, node: u16, span: Option<u64>) -> Link
        requires now { now ≤ MAX_READING }
        requires left { is_spent self.now ≡ false }
        ensures value { result ≡ greeting_for self.now now node span }
        ensures sound { IsSoundLink self.now.arbitrators result }
    {
        let (wire, len) = match span {
            Some(length) => (2, length.min(self.longest)),
            None => (1, self.lease),
        };
        let any = Who {
            actor: node,
            instance: 0,
        };
        let beginning = Beginning {
            at: now,
            state: LinkState::Hello,
            wire,
            len,
        };
        self.new_link(any, 0, beginning)
    }

    /// Greets a node, by frame version 1 for the configured lease, or by version 2 for a length of at most the
    /// longest. It is `AlreadyLinked` where a slot with the node is in Hello, Offered, Bound, Parting or Accused; else
    /// `Full` where no slot is free; else `Counters` where no number of a session is left.
    pub fn hello(
        &mut self,
        node: u16,
        now: u64,
        span: Option<u64>,
        out: &mut Outbox,
    ) -> Result<(), LinkRefusal>
        requires now { now ≤ MAX_READING }
        requires room { length out.old < OUTBOX_LIMIT }
        ensures outcome { outcome result self.new out.new ≡ call_after out.old (hello_call now node span self.old) }
        ensures err { OnErr result (self.new ≡ self.old) }
        ensures silent { OnErr result (out.new ≡ out.old) }
    {
        let None = find::bar(&self.slots, node) else {
            return Err(LinkRefusal::AlreadyLinked);
        };
        let Some(i) = find::free_place(&self.slots) else {
            return Err(LinkRefusal::Full);
        };
        if self.is_spent() {
            return Err(LinkRefusal::Counters);
        }
        let link = self.greeting_for(now, node, span);
        out.send(link.peer, bodies::hello(&link));
        self.begin(i, link);
        Ok(())
    }

    /// The place of the link that `part` would end.
    pub fn parting(&self, node: u16) -> Option<usize>
        ensures place { result ≡ slot_where (of_node may_part node) self.now.slots }
        ensures inside { IfSome result (λ i. i < SLOTS) }
    {
        find::parting(&self.slots, node)
    }

    /// Ends the first link with a node that is Offered or Bound: its record is given up, it is Parting, and the peer
    /// gets a Gone. It is `NotLinked` where there is none; else `Busy` where a flight of it stands.
    pub fn part(&mut self, node: u16, out: &mut Outbox) -> Result<(), LinkRefusal>
        requires { length out.old < OUTBOX_LIMIT }
        ensures outcome { outcome result self.new out.new ≡ call_after out.old (part_call node self.old) }
        ensures err { OnErr result (self.new ≡ self.old) }
        ensures silent { OnErr result (out.new ≡ out.old) }
    {
        let Some(i) = find::parting(&self.slots, node) else {
            return Err(LinkRefusal::NotLinked);
        };
        change!(self, i, slot => part(slot, out))
    }
}
