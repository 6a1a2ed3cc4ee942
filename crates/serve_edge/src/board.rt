use crate::seats::SEATS;
use crate::waits::timeout;
use crate::watch::Watch;
use libc::net::{POLLIN, POLLOUT};
use libc::types::pollfd;
use std::alloc::{AllocError, Global};
use std::cell::Cell;

/// What a served process waits for, each device at seats of its own, and the reading at which it last ended a rest.
/// The devices share it: each says what is awaited at its seats, and the rest waits for all of it at once.
#[derive(Drop)]
pub struct PollBoard {
    seats: Vec<Cell<Watch>>,
    now: Cell<u64>,
}

/// A seat of a poll at which nothing is watched.
const EMPTY: pollfd = pollfd {
    fd: -1,
    events: 0,
    revents: 0,
};

/// What the system is asked at a seat. It says of each descriptor that it watches that the other side is gone, so one
/// of which nothing is awaited is left out.
fn asked_of(watch: Watch) -> pollfd {
    let takes = if watch.takes { POLLIN } else { 0 };
    let gives = if watch.gives { POLLOUT } else { 0 };
    pollfd {
        fd: if watch.is_watched() {
            watch.descriptor
        } else {
            -1
        },
        events: takes | gives,
        revents: 0,
    }
}

impl PollBoard {
    /// Nothing is awaited.
    pub fn new(alloc: Global) -> Result<PollBoard, AllocError> {
        let mut seats = Vec::new(alloc);
        for _ in 0..SEATS {
            seats.push(Cell::new(Watch::none()))?;
        }
        Ok(PollBoard {
            seats,
            now: Cell::new(0),
        })
    }

    /// This is awaited at the seat from now on.
    pub fn watch(&self, seat: usize, watch: Watch) {
        if let Some(kept) = self.seats.get(seat) {
            kept.set(watch);
        }
    }

    /// The reading at which the last rest ended.
    pub fn now(&self) -> u64 {
        self.now.get()
    }

    /// A rest has ended at this reading.
    pub fn set_now(&self, now: u64) {
        self.now.set(now);
    }

    /// The first reading at which something is due.
    pub fn due(&self) -> u64 {
        let mut due = u64::MAX;
        for seat in &self.seats {
            due = due.min(seat.get().due);
        }
        due
    }

    /// Waits until something has come, or so many ticks. Says whether something came at the seat.
    pub fn poll(&self, ticks: u64, seat: usize) -> bool {
        let mut asked = [EMPTY; SEATS];
        for (place, kept) in asked.iter_mut().zip(self.seats.iter()) {
            *place = asked_of(kept.get());
        }
        libc::net::poll(&mut asked, timeout(ticks)) > 0
            && asked.get(seat).is_some_and(|found| found.revents != 0)
    }
}
