ghost use Rattle.std.specs.Prelude.{◌≡◌, ◌≤◌, ◌∷◌, ◌++◌, [], ℕ, false, Err, IsErr, OnOk, OnErr};
ghost use Rattle.edge_io.specs.Arrivals.{IsListening};
ghost use Rattle.edge_io.specs.Edge.{Grew, HasCauseOf, HasRisen};
ghost use Rattle.group_commit.specs.Given.{Given};
ghost use Rattle.group_commit.specs.Groups.{waits};
ghost use Rattle.group_commit.specs.Queues.{queue_of, waiting_as};

use crate::listened::Listened;
use crate::outgoing::Outgoing;
use crate::risen::risen;
use crate::waiting::Waiting;
use edge_io::{DATAGRAM_BYTES, EdgeRefusal, Failed, Links};
use std::alloc::{AllocError, Global};

/// So many frames wait at most before those that wait should leave.
pub const MAX_QUEUED: usize = 1_024;

/// Links over links, at which one actor listens: its frames can be held back. What wakes the links below and what comes
/// of them stays as it is.
#[derive(Drop)]
pub struct QueuedLinks<'n, N: Links> {
    alloc: Global,
    below: Listened<'n, N>,
    queue: Vec<Waiting>,
    most: usize,
    held: bool,
    lost: u64,
    faults: u64,
}

impl<'n, N: Links> QueuedLinks<'n, N> {
    /// Links over these, at which the actor listens. Nothing waits. So many frames may.
    pub fn new(alloc: Global, inner: &'n mut N, actor: u16, most: usize) -> QueuedLinks<'n, N>
        requires { IsListening actor (N.opened inner.old) }
        ensures inner { result.below.inner.now ≡ inner.old }
        ensures same { result.below.inner.ghost_name ≡ inner.entry.ghost_name }
        ensures actor { result.below.actor ≡ actor }
        ensures queue { result.queue.items ≡ [] }
        ensures most { result.most ≡ most }
        ensures held { result.held ≡ false }
        ensures lost { result.lost ≡ 0 }
        ensures faults { result.faults ≡ 0 }
    {
        QueuedLinks {
            alloc,
            below: Listened::new(inner, actor),
            queue: Vec::new(alloc),
            most,
            held: false,
            lost: 0,
            faults: 0,
        }
    }
}

/// Gives the links below a frame. One that they do not send is counted.
fn give_one<N: Links>(below: &mut Listened<'_, N>, frame: &Waiting, lost: u64) -> u64
    ensures given { Given (waiting_as below.old.actor frame.now ∷ []) (N.sent below.old.inner.now)
        (N.sent below.new.inner.now) lost result }
    ensures later { lost ≤ result }
    ensures opened { N.opened below.new.inner.now ≡ N.opened below.old.inner.now }
    ensures arrivals { (any : ℕ) → N.arrivals below.new.inner.now any ≡ N.arrivals below.old.inner.now any }
    ensures actor { below.new.actor ≡ below.old.actor }
{
    match below.send(frame.to.as_str(), frame.bytes.as_slice()) {
        Ok(()) => lost,
        Err(_) => risen(lost),
    }
}

/// Gives the links below all of these, in their order. Those that they do not send are counted.
fn give_all<N: Links>(below: &mut Listened<'_, N>, queue: &[Waiting], lost: u64) -> u64
    ensures given { Given (queue_of below.old.actor queue.now) (N.sent below.old.inner.now)
        (N.sent below.new.inner.now) lost result }
    ensures opened { N.opened below.new.inner.now ≡ N.opened below.old.inner.now }
    ensures arrivals { N.arrivals below.new.inner.now ≡ N.arrivals below.old.inner.now }
    ensures actor { below.new.actor ≡ below.old.actor }
{
    let mut count = lost;
    for frame in queue {
        count = give_one(below, frame, count);
    }
    count
}

impl<N: Links> QueuedLinks<'_, N> {
    /// A call that was answered has failed.
    fn fail(&mut self) -> EdgeRefusal
        ensures failed { result ≡ EdgeRefusal.Failed }
        ensures cause { self.old.faults ≤ self.new.faults }
        ensures risen { HasRisen self.old.faults self.new.faults }
        ensures rest { self.new ≡ record self.old { faults = self.new.faults } }
    {
        self.faults = risen(self.faults);
        EdgeRefusal::Failed
    }

    /// What a call below that was refused so answers.
    fn refuse(&mut self, error: EdgeRefusal) -> EdgeRefusal
        ensures same { result ≡ error }
        ensures later { self.old.faults ≤ self.new.faults }
        ensures risen { error ≡ EdgeRefusal.Failed → HasRisen self.old.faults self.new.faults }
        ensures rest { self.new ≡ record self.old { faults = self.new.faults } }
    {
        match error {
            EdgeRefusal::Failed => self.fail(),
            EdgeRefusal::OutOfMemory => EdgeRefusal::OutOfMemory,
        }
    }

    /// Sends a frame at once.
    fn pass(&mut self, to: &str, bytes: &[u8]) -> Result<(), EdgeRefusal>
        ensures ok { OnOk result (Grew (N.sent self.old.below.inner.now) (N.sent self.new.below.inner.now)
            (record { from = self.old.below.actor; to = to.now; bytes = bytes.now } ∷ [])) }
        ensures err { OnErr result (N.sent self.new.below.inner.now ≡ N.sent self.old.below.inner.now) }
        ensures opened { N.opened self.new.below.inner.now ≡ N.opened self.old.below.inner.now }
        ensures arrivals { (any : ℕ) → N.arrivals self.new.below.inner.now any
            ≡ N.arrivals self.old.below.inner.now any }
        ensures cause { HasCauseOf EdgeRefusal.Failed self.old.faults self.new.faults result }
        ensures actor { self.new.below.actor ≡ self.old.below.actor }
        ensures queue { self.new.queue ≡ self.old.queue }
        ensures held { self.new.held ≡ self.old.held }
        ensures lost { self.new.lost ≡ self.old.lost }
    {
        match self.below.send(to, bytes) {
            Ok(()) => Ok(()),
            Err(error) => Err(self.refuse(error)),
        }
    }

    /// Queues a frame behind the others.
    fn push(&mut self, to: &str, bytes: &[u8]) -> Result<(), EdgeRefusal>
        ensures ok { OnOk result (self.new.queue.items
            ≡ self.old.queue.items ++ record { to = to.now; bytes = bytes.now } ∷ []) }
        ensures err { OnErr result (self.new.queue.items ≡ self.old.queue.items) }
        ensures memory { IsErr result → result ≡ Err EdgeRefusal.OutOfMemory }
        ensures below { self.new.below ≡ self.old.below }
        ensures held { self.new.held ≡ self.old.held }
        ensures lost { self.new.lost ≡ self.old.lost }
        ensures faults { self.new.faults ≡ self.old.faults }
    {
        let frame = Waiting::new(self.alloc, to, bytes)?;
        self.queue.push(frame)?;
        Ok(())
    }

    /// Whether the next frame waits.
    fn waits(&self) -> bool
        ensures { result ≡ waits self.now.held (queue_of self.now.below.actor self.now.queue.items) }
    {
        self.held || !self.queue.is_empty()
    }
}

impl<N: Links> Links for QueuedLinks<'_, N> {
    ghost use Rattle.std.specs.Prelude.{None};
    ghost use Rattle.group_commit.specs.Groups.{with_queue};
    ghost use Rattle.group_commit.specs.Queues.{queue_of};

    ghost opened = { λ l. N.opened l.below.inner.now };

    ghost arrivals = { λ l actor. N.arrivals l.below.inner.now actor };

    ghost sent = { λ l. with_queue (N.sent l.below.inner.now) (queue_of l.below.actor l.queue.items) };

    ghost faults = { λ l. l.faults };

    ghost plan = { λ l. None };

    fn listen(&mut self, actor: u16, at: &str) -> Result<(), EdgeRefusal> {
        match self.below.listen(actor, at) {
            Ok(()) => Ok(()),
            Err(error) => Err(self.refuse(error)),
        }
    }

    fn send(&mut self, from: u16, to: &str, bytes: &[u8]) -> Result<(), EdgeRefusal> {
        self.pass_or_queue(from, to, bytes)
    }

    fn receive(
        &mut self,
        actor: u16,
        into: &mut [u8; DATAGRAM_BYTES],
    ) -> Result<Option<usize>, Failed> {
        self.take_next(actor, into)
    }
}

impl<N: Links> Outgoing for QueuedLinks<'_, N> {
    ghost use Rattle.std.specs.Prelude.{length, nat_le};
    ghost use Rattle.group_commit.specs.Groups.{waits};
    ghost use Rattle.group_commit.specs.Queues.{queue_of};

    ghost holds = { λ l. waits l.held (queue_of l.below.actor l.queue.items) };

    ghost queue = { λ l. queue_of l.below.actor l.queue.items };

    ghost left = { λ l. N.sent l.below.inner.now };

    ghost lost = { λ l. l.lost };

    ghost full = { λ l. nat_le l.most (length l.queue.items) };

    fn is_holding(&self) -> bool {
        self.waits()
    }

    fn is_full(&self) -> bool {
        self.queue.len() >= self.most
    }

    fn hold_back(&mut self) {
        self.held = true;
    }

    fn pass_or_queue(&mut self, from: u16, to: &str, bytes: &[u8]) -> Result<(), EdgeRefusal> {
        if from != self.below.actor {
            return Err(self.fail());
        }
        if self.waits() {
            self.push(to, bytes)
        } else {
            self.pass(to, bytes)
        }
    }

    fn take_next(
        &mut self,
        actor: u16,
        into: &mut [u8; DATAGRAM_BYTES],
    ) -> Result<Option<usize>, Failed> {
        match self.below.receive(actor, into) {
            Ok(answer) => Ok(answer),
            Err(Failed) => {
                self.faults = risen(self.faults);
                Err(Failed)
            }
        }
    }

    fn release(&mut self) {
        self.lost = give_all(&mut self.below, &self.queue, self.lost);
        self.queue.clear();
        self.held = false;
    }
}
