ghost use Rattle.std.specs.Prelude.{◌≡◌, ◌≢◌, ◌≤◌, ◌++◌, ◌∷◌, [], ℕ, true, false, IfOk, IfSome, OnOk, OnErr, IsErr};
ghost use Rattle.std.specs.Prelude.{IsErrOf, length};
ghost use Rattle.std.specs.List.{list_any};
ghost use Rattle.edge_io.specs.Arrivals.{IsListening, Receives};
ghost use Rattle.edge_io.specs.Edge.{Grew, HasCause, HasCauseOf};
ghost use Rattle.edge_io.specs.declared.refusal.EdgeRefusal.TheVariants as refusal;
ghost use Rattle.frame_hold.specs.Kept.{free_of, held_of, held_with};
ghost use Rattle.frame_hold.specs.Promises.{Given, LetsOut, NeverBeforeDone};
ghost use Rattle.frame_hold.specs.Waits.{frame_waits, is_number, is_overdue, without};

use crate::frames::frame_waits;
use crate::held_frames::{HeldFrames, is_free};
use crate::holding::Holding;
use crate::losses::GivesUp;
use edge_io::{DATAGRAM_BYTES, Datagram, EdgeRefusal, Failed, Links};
use fabric_terms::OutOfMemory;
use group_commit::Outgoing;
use std::alloc::Global;

/// Links over links that can hold frames back: a frame that waits for a `done` counts as sent, and is late. Of equal
/// frames to one address one is kept. Whoever syncs records settles the links below. Where they hold frames back, a
/// frame that waits for no `done` waits there.
#[derive(Drop)]
pub struct HoldingLinks<'n, N: Outgoing> {
    pub(crate) inner: &'n mut N,
    holding: Holding,
    held: HeldFrames,
}

impl<'n, N: Outgoing> HoldingLinks<'n, N> {
    /// Links over these. No number is open.
    pub fn new(alloc: Global, inner: &'n mut N) -> HoldingLinks<'n, N>
        ensures inner { result.inner.now ≡ inner.old }
        ensures same { result.inner.ghost_name ≡ inner.entry.ghost_name }
        ensures holding { result.holding ≡ [] }
        ensures held { result.held ≡ [] }
    {
        HoldingLinks {
            inner,
            holding: Holding::new(alloc),
            held: HeldFrames::new(alloc),
        }
    }

    /// How many frames wait.
    pub fn held(&self) -> usize
        ensures { result ≡ length self.now.held }
    {
        self.held.as_slice().len()
    }

    /// Nothing is owed any more, and no frame waits: those that did are lost.
    pub fn forget(&mut self)
        ensures holding { self.new.holding ≡ [] }
        ensures held { self.new.held ≡ [] }
        ensures below { self.new.inner.now ≡ self.old.inner.now }
    {
        self.holding.clear();
        self.held.clear();
    }

    /// The line of this number gives something up, and was written at this reading. From now on its frames wait.
    pub fn note(&mut self, number: u64, what: GivesUp, now: u64) -> Result<(), OutOfMemory>
        ensures ok { IfOk result (λ _. self.new.holding ≡
            self.old.holding ++ record { number = number; what = what; since = now } ∷ []) }
        ensures err { OnErr result (self.new.holding ≡ self.old.holding) }
        ensures below { self.new.inner.now ≡ self.old.inner.now }
        ensures held { self.new.held ≡ self.old.held }
    {
        self.holding.note(number, what, now)
    }

    /// Closes a number, and says whether it was open. What waits for nothing any more leaves at `let_out`.
    pub fn done(&mut self, number: u64) -> bool
        ensures open { result ≡ list_any (is_number number) self.old.holding }
        ensures closed { self.new.holding ≡ without number self.old.holding }
        ensures below { self.new.inner.now ≡ self.old.inner.now }
        ensures held { self.new.held ≡ self.old.held }
    {
        self.holding.done(number)
    }

    /// Whether a number is owed for longer than this.
    pub fn is_overdue(&self, now: u64, hold: u64) -> bool
        ensures { result ≡ is_overdue now hold self.now.holding }
    {
        self.holding.is_overdue(now, hold)
    }

    /// Gives the links below what the actor may send now, the oldest first. What they fail to send is lost. Where
    /// memory runs out, a part of it was given, and all of it waits still.
    pub fn let_out(&mut self, actor: u16) -> Result<(), OutOfMemory>
        requires { IsListening actor (N.opened self.old.inner.now) }
        ensures given { IfOk result (λ _. Given (free_of actor self.old.holding self.old.held)
            (N.sent self.old.inner.now) (N.sent self.new.inner.now)
            (N.faults self.old.inner.now) (N.faults self.new.inner.now)) }
        ensures never { NeverBeforeDone self.old.holding (N.sent self.old.inner.now) (N.sent self.new.inner.now) }
        ensures held { IfOk result (λ _. self.new.held ≡ held_of actor self.old.holding self.old.held) }
        ensures err { OnErr result (self.new.held ≡ self.old.held) }
        ensures holding { self.new.holding ≡ self.old.holding }
        ensures opened { N.opened self.new.inner.now ≡ N.opened self.old.inner.now }
        ensures arrivals { (any : ℕ) → N.arrivals self.new.inner.now any ≡ N.arrivals self.old.inner.now any }
        ensures later { N.faults self.old.inner.now ≤ N.faults self.new.inner.now }
        ensures holds { N.holds self.new.inner.now ≡ N.holds self.old.inner.now }
        ensures queue { N.holds self.old.inner.now ≡ false → N.queue self.new.inner.now ≡ N.queue self.old.inner.now }
        ensures left { N.holds self.old.inner.now ≡ true → N.left self.new.inner.now ≡ N.left self.old.inner.now }
    {
        give_free(self.inner, actor, &self.holding, self.held.as_slice())?;
        self.held.drop_free(actor, &self.holding);
        Ok(())
    }

    /// Sends a frame that waits for nothing. Another one is kept for later, as if it were sent.
    pub fn pass_or_keep(&mut self, from: u16, to: &str, bytes: &[u8]) -> Result<(), EdgeRefusal>
        requires { IsListening from (N.opened self.old.inner.now) }
        ensures passed { frame_waits self.old.holding bytes.now ≡ false →
            OnOk result (Grew (N.sent self.old.inner.now) (N.sent self.new.inner.now)
            (record { from = from; to = to.now; bytes = bytes.now } ∷ [])) }
        ensures stays { frame_waits self.old.holding bytes.now ≡ false → self.new.held ≡ self.old.held }
        ensures waits { frame_waits self.old.holding bytes.now ≡ true → self.new.inner.now ≡ self.old.inner.now }
        ensures kept { frame_waits self.old.holding bytes.now ≡ true → OnOk result (self.new.held ≡
            held_with (record { from = from; to = to.now; bytes = bytes.now }) self.old.held) }
        ensures err { OnErr result (N.sent self.new.inner.now ≡ N.sent self.old.inner.now) }
        ensures refused { OnErr result (self.new.held ≡ self.old.held) }
        ensures never { NeverBeforeDone self.old.holding (N.sent self.old.inner.now) (N.sent self.new.inner.now) }
        ensures holding { self.new.holding ≡ self.old.holding }
        ensures opened { N.opened self.new.inner.now ≡ N.opened self.old.inner.now }
        ensures arrivals { (any : ℕ) → N.arrivals self.new.inner.now any ≡ N.arrivals self.old.inner.now any }
        ensures cause { HasCauseOf EdgeRefusal.Failed (N.faults self.old.inner.now) (N.faults self.new.inner.now) result }
        ensures holds { N.holds self.new.inner.now ≡ N.holds self.old.inner.now }
        ensures queue { N.holds self.old.inner.now ≡ false → N.queue self.new.inner.now ≡ N.queue self.old.inner.now }
        ensures left { N.holds self.old.inner.now ≡ true → N.left self.new.inner.now ≡ N.left self.old.inner.now }
    {
        if !frame_waits(&self.holding, bytes) {
            return self.inner.pass_or_queue(from, to, bytes);
        }
        match self.held.keep(from, to, bytes) {
            Ok(()) => Ok(()),
            Err(OutOfMemory) => Err(EdgeRefusal::OutOfMemory),
        }
    }

    /// Gives the links below what the actor may send now, and then takes of them the next datagram that has arrived at
    /// the actor. What is not given for want of memory waits still.
    pub fn let_out_and_take(
        &mut self,
        actor: u16,
        into: &mut [u8; DATAGRAM_BYTES],
    ) -> Result<Option<usize>, Failed>
        requires { IsListening actor (N.opened self.old.inner.now) }
        ensures lets_out { LetsOut actor self.old.holding self.old.held self.new.held (N.sent self.old.inner.now)
            (N.sent self.new.inner.now) (N.faults self.old.inner.now) (N.faults self.new.inner.now) }
        ensures never { NeverBeforeDone self.old.holding (N.sent self.old.inner.now) (N.sent self.new.inner.now) }
        ensures holding { self.new.holding ≡ self.old.holding }
        ensures length { IfOk result (λ answer. IfSome answer (λ n. n ≤ DATAGRAM_BYTES)) }
        ensures ok { IfOk result (λ answer. Receives (N.arrivals self.old.inner.now actor) answer into.new
            (N.arrivals self.new.inner.now actor)) }
        ensures err { OnErr result (N.arrivals self.new.inner.now actor ≡ N.arrivals self.old.inner.now actor) }
        ensures others { (other : ℕ) → other ≢ actor →
            N.arrivals self.new.inner.now other ≡ N.arrivals self.old.inner.now other }
        ensures opened { N.opened self.new.inner.now ≡ N.opened self.old.inner.now }
        ensures cause { HasCause (N.faults self.old.inner.now) (N.faults self.new.inner.now) result }
        ensures holds { N.holds self.new.inner.now ≡ N.holds self.old.inner.now }
        ensures queue { N.holds self.old.inner.now ≡ false → N.queue self.new.inner.now ≡ N.queue self.old.inner.now }
        ensures left { N.holds self.old.inner.now ≡ true → N.left self.new.inner.now ≡ N.left self.old.inner.now }
    {
        let _ = self.let_out(actor);
        self.inner.take_next(actor, into)
    }
}

/// Gives the links a datagram. What they fail to send is lost.
fn give_one<N: Outgoing>(links: &mut N, datagram: &Datagram) -> Result<(), OutOfMemory>
    requires { IsListening datagram.now.from (N.opened links.old) }
    ensures given { IfOk result (λ _. Given (datagram.now ∷ []) (N.sent links.old) (N.sent links.new)
        (N.faults links.old) (N.faults links.new)) }
    ensures err { OnErr result (N.sent links.new ≡ N.sent links.old) }
    ensures opened { N.opened links.new ≡ N.opened links.old }
    ensures arrivals { (any : ℕ) → N.arrivals links.new any ≡ N.arrivals links.old any }
    ensures later { N.faults links.old ≤ N.faults links.new }
    ensures holds { N.holds links.new ≡ N.holds links.old }
    ensures queue { N.holds links.old ≡ false → N.queue links.new ≡ N.queue links.old }
    ensures left { N.holds links.old ≡ true → N.left links.new ≡ N.left links.old }
{
    let bytes = datagram.bytes.as_slice();
    match links.pass_or_queue(datagram.from, datagram.to.as_str(), bytes) {
        Ok(()) => Ok(()),
        Err(EdgeRefusal::Failed) => Ok(()),
        Err(EdgeRefusal::OutOfMemory) => Err(OutOfMemory),
    }
}

/// Gives the links what the actor may send of these, in their order.
fn give_free<N: Outgoing>(
    links: &mut N,
    actor: u16,
    holding: &Holding,
    held: &[Datagram],
) -> Result<(), OutOfMemory>
    requires { IsListening actor (N.opened links.old) }
    ensures given { IfOk result (λ _. Given (free_of actor holding.now held.now) (N.sent links.old) (N.sent links.new)
        (N.faults links.old) (N.faults links.new)) }
    ensures never { NeverBeforeDone holding.now (N.sent links.old) (N.sent links.new) }
    ensures opened { N.opened links.new ≡ N.opened links.old }
    ensures arrivals { (any : ℕ) → N.arrivals links.new any ≡ N.arrivals links.old any }
    ensures later { N.faults links.old ≤ N.faults links.new }
    ensures holds { N.holds links.new ≡ N.holds links.old }
    ensures queue { N.holds links.old ≡ false → N.queue links.new ≡ N.queue links.old }
    ensures left { N.holds links.old ≡ true → N.left links.new ≡ N.left links.old }
{
    for datagram in held {
        if is_free(actor, holding, datagram) {
            give_one(links, datagram)?;
        }
    }
    Ok(())
}

impl<N: Outgoing> Links for HoldingLinks<'_, N> {
    ghost use Rattle.std.specs.Prelude.{None};

    ghost opened = { λ l. N.opened l.inner.now };

    ghost arrivals = { λ l actor. N.arrivals l.inner.now actor };

    ghost sent = { λ l. None };

    ghost faults = { λ l. N.faults l.inner.now };

    ghost plan = { λ l. None };

    fn listen(&mut self, actor: u16, at: &str) -> Result<(), EdgeRefusal> {
        self.inner.listen(actor, at)
    }

    fn send(&mut self, from: u16, to: &str, bytes: &[u8]) -> Result<(), EdgeRefusal> {
        self.pass_or_keep(from, to, bytes)
    }

    fn receive(
        &mut self,
        actor: u16,
        into: &mut [u8; DATAGRAM_BYTES],
    ) -> Result<Option<usize>, Failed> {
        self.let_out_and_take(actor, into)
    }
}
