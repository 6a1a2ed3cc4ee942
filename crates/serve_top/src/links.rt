use crate::tally::Tally;
use edge_io::{DATAGRAM_BYTES, EdgeRefusal, Failed, Links};
use fabric_terms::{Body, Message};
use ring_points::Who;
use ring_wire::decode_into;
use status_page::Junk;

/// Where the kind of a frame stands in its bytes.
const KIND_AT: usize = 2;

/// After so many failures in succession the log says that the endpoint is deaf.
const DEAF_AFTER: u64 = 100;

/// Links whose frames are counted by their kinds. With sealed links behind it an empty datagram is one that was not
/// sealed right.
#[derive(Drop)]
pub struct TalliedLinks<'a, N: Links> {
    inner: N,
    tally: &'a Tally,
    sealed: bool,
    /// Failures of receiving in succession.
    failures: u64,
    /// Where each frame is read into, to see whether it is one.
    place: Message,
}

/// A place that a frame is read into.
fn empty_place() -> Message {
    let nobody = Who {
        actor: 0,
        instance: 0,
    };
    Message {
        from: nobody,
        to: nobody,
        body: Body::Hello { mine: 0 },
    }
}

impl<'a, N: Links> TalliedLinks<'a, N> {
    /// The frames of these links.
    pub fn new(inner: N, tally: &'a Tally, sealed: bool) -> Self {
        TalliedLinks {
            inner,
            tally,
            sealed,
            failures: 0,
            place: empty_place(),
        }
    }
}

/// A datagram of these bytes has come.
fn count_frame(tally: &Tally, place: &mut Message, is_sealed: bool, bytes: &[u8]) {
    if is_sealed && bytes.is_empty() {
        tally.count(|counters| counters.count_junk(Junk::Seal));
        return;
    }
    match (decode_into(bytes, place), bytes.get(KIND_AT)) {
        (Ok(()), Some(kind)) => {
            let kind = *kind;
            tally.count(|counters| counters.count_received(kind));
        }
        _ => tally.count(|counters| counters.count_junk(Junk::Bytes)),
    }
}

/// Failures in succession after one more answer. The tally is told when they are many.
fn failures_after(tally: &Tally, failures: u64, is_failed: bool) -> u64 {
    if !is_failed {
        return 0;
    }
    let failures = failures.saturating_add(1);
    if failures == DEAF_AFTER {
        tally.set_deaf();
    }
    failures
}

impl<N: Links> Links for TalliedLinks<'_, N> {
    ghost opened = { λ l. N.opened l.inner };

    ghost arrivals = { λ l actor. N.arrivals l.inner actor };

    ghost sent = { λ l. N.sent l.inner };

    ghost faults = { λ l. N.faults l.inner };

    ghost plan = { λ l. N.plan l.inner };

    fn listen(&mut self, actor: u16, at: &str) -> Result<(), EdgeRefusal> {
        self.inner.listen(actor, at)
    }

    fn send(&mut self, from: u16, to: &str, bytes: &[u8]) -> Result<(), EdgeRefusal> {
        self.inner.send(from, to, bytes)?;
        if let Some(kind) = bytes.get(KIND_AT) {
            let kind = *kind;
            self.tally.count(|counters| counters.count_sent(kind));
        }
        Ok(())
    }

    fn receive(
        &mut self,
        actor: u16,
        into: &mut [u8; DATAGRAM_BYTES],
    ) -> Result<Option<usize>, Failed> {
        let answer = self.inner.receive(actor, into);
        self.failures = failures_after(self.tally, self.failures, answer.is_err());
        if let Ok(Some(count)) = &answer {
            count_frame(self.tally, &mut self.place, self.sealed, &into[..*count]);
        }
        answer
    }
}
