// Stand-ins for the machine, whose calls fail where a test wants it.
use fabric_edge::BootClock;
use std::alloc::Allocator;
use std::cell::Cell;
use std::fmt::Display;
use std::io;
use std::io::{BufRead, ErrorKind, Input, Lines, Read};
use std::time::Duration;

/// A machine's clock that gives these times one after another, and fails where there is none.
#[derive(Drop)]
pub struct Machine {
    pub gives: [Option<Duration>; 6],
    pub given: Cell<usize>,
}

impl BootClock for Machine {
    fn since_boot(&self) -> Option<Duration> {
        let place = self.given.get();
        self.given.set(place.saturating_add(1));
        self.gives.get(place).copied().flatten()
    }
}

/// A terminal that takes so many bytes of a piece, or fails. Signals cut so many of its first calls short.
#[derive(Drop)]
pub struct Terminal {
    pub takes: Option<usize>,
    pub signals: Cell<u32>,
}

impl Print for Terminal {
    fn print<D: Display + Drop>(&self, _value: D) -> io::Result<()> {
        Ok(())
    }

    fn println<D: Display + Drop>(&self, _value: D) -> io::Result<()> {
        Ok(())
    }

    fn write_all(&self, _bytes: &[u8]) -> io::Result<()> {
        Ok(())
    }

    fn write_some(&self, bytes: &[u8]) -> io::Result<usize> {
        if let Some(left) = self.signals.get().checked_sub(1) {
            self.signals.set(left);
            return Err(io::Error::from(ErrorKind::Interrupted));
        }
        match self.takes {
            Some(count) => Ok(count.min(bytes.len())),
            None => Err(io::Error::from(ErrorKind::BrokenPipe)),
        }
    }
}

/// A keyboard that gives one byte at each read, or fails. Signals cut so many of a reader's first reads short.
#[derive(Clone, Copy)]
pub struct Keyboard {
    pub key: Option<u8>,
    pub signals: u32,
}

impl Read for Keyboard {
    fn read(&mut self, buf: &mut [u8]) -> io::Result<usize> {
        if let Some(left) = self.signals.checked_sub(1) {
            self.signals = left;
            return Err(io::Error::from(ErrorKind::Interrupted));
        }
        let Some(key) = self.key else {
            return Err(io::Error::from(ErrorKind::Other));
        };
        let Some(first) = buf.first_mut() else {
            return Ok(0);
        };
        *first = key;
        Ok(1)
    }
}

impl BufRead for Keyboard {
    fn fill_buf(&mut self) -> io::Result<&[u8]> {
        Err(io::Error::from(ErrorKind::Unsupported))
    }

    fn consume(&mut self, _amount: usize) {}
}

impl Input for Keyboard {
    type Reader = Keyboard;

    fn read_line<A: Allocator + Clone>(&self, _buf: &mut String<A>) -> io::Result<usize> {
        Err(io::Error::from(ErrorKind::Unsupported))
    }

    fn lines<A: Allocator>(&self, alloc: A) -> Lines<Keyboard, A> {
        self.reader().lines(alloc)
    }

    fn reader(&self) -> Keyboard {
        *self
    }
}
