ghost use Rattle.std.specs.Prelude.{◌≡◌, ◌≢◌, ◌≤◌, ◌∷◌, ◌++◌, [], ℕ, IfOk, IfSome, OnOk, OnErr};
ghost use Rattle.edge_io.specs.Arrivals.{IsListening, Receives};
ghost use Rattle.edge_io.specs.Edge.{Grew};

use edge_io::{DATAGRAM_BYTES, EdgeRefusal, Failed, Links};

/// Links at which an actor listens, so that it may send whenever it wants.
#[derive(Drop)]
pub struct Listened<'n, N: Links> {
    pub(crate) inner: &'n mut N,
    pub(crate) actor: u16,
    ghost listens: { IsListening actor (N.opened inner.now) },
}

impl<'n, N: Links> Listened<'n, N> {
    /// The actor listens at these links.
    pub(crate) fn new(inner: &'n mut N, actor: u16) -> Listened<'n, N>
        requires { IsListening actor (N.opened inner.old) }
        ensures inner { result.inner.now ≡ inner.old }
        ensures same { result.inner.ghost_name ≡ inner.entry.ghost_name }
        ensures actor { result.actor ≡ actor }
    {
        Listened { inner, actor }
    }

    /// Opens a further endpoint.
    pub(crate) fn listen(&mut self, actor: u16, at: &str) -> Result<(), EdgeRefusal>
        ensures ok { OnOk result (N.opened self.new.inner.now
            ≡ N.opened self.old.inner.now ++ record { actor = actor; at = at.now } ∷ []) }
        ensures err { OnErr result (N.opened self.new.inner.now ≡ N.opened self.old.inner.now) }
        ensures sent { N.sent self.new.inner.now ≡ N.sent self.old.inner.now }
        ensures arrivals { (any : ℕ) → N.arrivals self.new.inner.now any ≡ N.arrivals self.old.inner.now any }
        ensures actor { self.new.actor ≡ self.old.actor }
    {
        self.inner.listen(actor, at)
    }

    /// Sends the bytes to an address. A refused call sends nothing.
    pub(crate) fn send(&mut self, to: &str, bytes: &[u8]) -> Result<(), EdgeRefusal>
        ensures ok { OnOk result (Grew (N.sent self.old.inner.now) (N.sent self.new.inner.now)
            (record { from = self.old.actor; to = to.now; bytes = bytes.now } ∷ [])) }
        ensures err { OnErr result (N.sent self.new.inner.now ≡ N.sent self.old.inner.now) }
        ensures opened { N.opened self.new.inner.now ≡ N.opened self.old.inner.now }
        ensures arrivals { (any : ℕ) → N.arrivals self.new.inner.now any ≡ N.arrivals self.old.inner.now any }
        ensures actor { self.new.actor ≡ self.old.actor }
    {
        self.inner.send(self.actor, to, bytes)
    }

    /// Takes the next datagram that has arrived at an actor that listens.
    pub(crate) fn receive(
        &mut self,
        actor: u16,
        into: &mut [u8; DATAGRAM_BYTES],
    ) -> Result<Option<usize>, Failed>
        requires { IsListening actor (N.opened self.old.inner.now) }
        ensures length { IfOk result (λ answer. IfSome answer (λ n. n ≤ DATAGRAM_BYTES)) }
        ensures ok { IfOk result (λ answer. Receives (N.arrivals self.old.inner.now actor) answer into.new
            (N.arrivals self.new.inner.now actor)) }
        ensures err { OnErr result (N.arrivals self.new.inner.now actor ≡ N.arrivals self.old.inner.now actor) }
        ensures others { (other : ℕ) → other ≢ actor →
            N.arrivals self.new.inner.now other ≡ N.arrivals self.old.inner.now other }
        ensures opened { N.opened self.new.inner.now ≡ N.opened self.old.inner.now }
        ensures sent { N.sent self.new.inner.now ≡ N.sent self.old.inner.now }
        ensures actor { self.new.actor ≡ self.old.actor }
    {
        self.inner.receive(actor, into)
    }
}
