use crate::ask::{first_word, later_words};
use crate::tally::Tally;
use door_io::{Clients, MAX_ASKED, Said};
use door_lines::Fault;

/// Clients whose refused lines are counted.
#[derive(Drop)]
pub struct TalliedClients<'a, C: Clients> {
    inner: C,
    tally: &'a Tally,
}

impl<'a, C: Clients> TalliedClients<'a, C> {
    /// What is said to these clients.
    pub fn new(inner: C, tally: &'a Tally) -> Self {
        TalliedClients { inner, tally }
    }
}

/// Why a line was refused, if this is what is said then: behind the tag stands `fault` with the word of the fault.
fn refusal_in(text: &[u8]) -> Option<Fault> {
    let (line, _) = crate::cut::cut_by(b'\n', text);
    let words = later_words(line);
    if !line.starts_with(b"@") || first_word(words) != b"fault".as_slice() {
        return None;
    }
    let word = later_words(words);
    if word == b"line".as_slice() {
        Some(Fault::Line)
    } else if word == b"nosuch".as_slice() {
        Some(Fault::NoSuch)
    } else if word == b"large".as_slice() {
        Some(Fault::Large)
    } else if word == b"busy".as_slice() {
        Some(Fault::Busy)
    } else {
        None
    }
}

impl<C: Clients> Clients for TalliedClients<'_, C> {
    ghost told = { λ d. C.told d.inner };

    fn next(&mut self, into: &mut [u8; MAX_ASKED]) -> Said {
        self.inner.next(into)
    }

    fn say(&mut self, client: u32, text: &[u8]) {
        if let Some(fault) = refusal_in(text) {
            self.tally
                .count(|counters| counters.count_line_refused(fault));
        }
        self.inner.say(client, text);
    }

    fn close(&mut self, client: u32) {
        self.inner.close(client);
    }

    fn log(&mut self, line: &[u8]) {
        self.inner.log(line);
    }

    fn lose(&mut self) {
        self.inner.lose();
    }
}
