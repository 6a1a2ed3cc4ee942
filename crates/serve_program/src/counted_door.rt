use door_io::{Door, MAX_ASKED, Said};
use serve_edge::{END, PARENT_CLIENT, ServedDoor};
use serve_top::Tally;

/// The door of the process, whose clients are counted. Where records could not be synced, it gives the line that ends
/// the process, and nothing else.
#[derive(Drop)]
pub struct CountedDoor<'a> {
    inner: ServedDoor<'a>,
    tally: &'a Tally,
    /// How many clients were dropped so far.
    dropped: u64,
}

impl<'a> CountedDoor<'a> {
    /// The clients of this door.
    pub fn new(inner: ServedDoor<'a>, tally: &'a Tally) -> Self {
        CountedDoor {
            inner,
            tally,
            dropped: 0,
        }
    }
}

impl CountedDoor<'_> {
    /// Counts the clients, and those that were dropped since this was called last.
    fn count(&mut self) {
        self.tally.set_connections(self.inner.clients() as u64);
        let dropped = self.inner.dropped();
        for _ in self.dropped..dropped {
            self.tally.count(|counters| counters.count_client_dropped());
        }
        self.dropped = dropped;
    }
}

/// Whether it is a line of the parent.
fn is_of_parent(said: Said) -> bool {
    matches!(said, Said::Line(PARENT_CLIENT, _))
}

impl Door for CountedDoor<'_> {
    ghost use Rattle.std.specs.Prelude.{None, true};

    ghost asked = { λ d. None };

    ghost answered = { λ d client. None };

    // As the door that it has, it does not tell what a client has read.
    ghost dropped = { λ d client. true };

    fn next(&mut self, into: &mut [u8; MAX_ASKED]) -> Said {
        if self.tally.is_unkept() {
            into[..END.len()].copy_from_slice(END);
            return Said::Line(PARENT_CLIENT, END.len());
        }
        let said = self.inner.next(into);
        self.tally.set_parent_asks(is_of_parent(said));
        self.count();
        said
    }

    fn answer(&mut self, client: u32, text: &[u8]) {
        self.inner.answer(client, text);
    }

    fn close(&mut self, client: u32) {
        self.inner.close(client);
    }
}
