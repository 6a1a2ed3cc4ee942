use crate::board::PollBoard;
use crate::limits::MAX_PAUSE_TICKS;
use crate::waits::later;
use crate::watch::Watch;
use crate::wire::Wire;
use std::io;
use std::io::ErrorKind;
use std::net::TcpListener;
use std::os::fd::AsRawFd;
use std::os::unix::net::UnixListener;

/// A listener that does not wait.
#[derive(Drop)]
pub enum Listener {
    Door(UnixListener),
    Page(TcpListener),
}

impl Listener {
    /// The next connection that has come, which does not wait.
    fn accept(&self) -> io::Result<Wire> {
        match self {
            Listener::Door(listener) => {
                let (stream, _) = listener.accept()?;
                stream.set_nonblocking(true)?;
                Ok(Wire::Door(stream))
            }
            Listener::Page(listener) => {
                let (stream, _) = listener.accept()?;
                stream.set_nonblocking(true)?;
                Ok(Wire::Page(stream))
            }
        }
    }

    /// The number of its descriptor.
    fn descriptor(&self) -> i32 {
        match self {
            Listener::Door(listener) => listener.as_raw_fd(),
            Listener::Page(listener) => listener.as_raw_fd(),
        }
    }
}

/// Where connections come in. A listener that fails is left alone for a while, so that it does not keep the machine
/// busy.
#[derive(Drop)]
pub struct Gate<'a> {
    board: &'a PollBoard,
    seat: usize,
    listener: Listener,
    /// Up to which reading the listener is left alone.
    resume: u64,
}

impl<'a> Gate<'a> {
    /// A gate whose listener has this seat.
    pub fn new(board: &'a PollBoard, seat: usize, listener: Listener) -> Self {
        board.watch(seat, Watch::taking(listener.descriptor()));
        Gate {
            board,
            seat,
            listener,
            resume: 0,
        }
    }
}

/// Whether a connection that was not taken says nothing of the listener: none has come, or it has gone again.
fn is_quiet(kind: ErrorKind) -> bool {
    matches!(
        kind,
        ErrorKind::WouldBlock | ErrorKind::Interrupted | ErrorKind::ConnectionAborted
    )
}

impl Gate<'_> {
    /// The next connection that has come.
    pub fn next(&mut self) -> Option<Wire> {
        if self.board.now() < self.resume {
            return None;
        }
        let taken = self.listener.accept();
        match taken {
            Ok(wire) => {
                self.watch();
                Some(wire)
            }
            Err(error) => {
                if is_quiet(error.kind()) {
                    self.watch();
                } else {
                    self.pause();
                }
                None
            }
        }
    }

    /// Awaits the next connection.
    fn watch(&self) {
        self.board
            .watch(self.seat, Watch::taking(self.listener.descriptor()));
    }

    /// Leaves the listener alone for a while.
    fn pause(&mut self) {
        self.resume = later(self.board.now(), MAX_PAUSE_TICKS);
        self.board.watch(self.seat, Watch::until(self.resume));
    }
}
