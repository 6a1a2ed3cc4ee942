ghost use Rattle.std.specs.Prelude.{◌≡◌, ◌≤◌, length, IfOk};
ghost use Rattle.serve_edge.specs.Wires.{MovesAtMost};

use crate::ready::{may_read, may_write};
use crate::standard::{read_front, write_front};
use std::io;
use std::io::{ErrorKind, Read, Write};
use std::net::TcpStream;
use std::os::fd::AsRawFd;
use std::os::unix::net::UnixStream;

/// What bytes come from and go to, and what does not wait.
#[derive(Drop)]
pub enum Wire {
    /// A connection to the door.
    Door(UnixStream),
    /// A connection to the page.
    Page(TcpStream),
    /// Two descriptors, one of which is read and the other written. They may wait, so each is asked before.
    Streams { input: i32, output: i32 },
}

/// What a call moved over a connection.
#[derive(Clone, Copy, Debug, PartialEq, Eq)]
pub enum Moved {
    /// So many bytes, one at least.
    Bytes(usize),
    /// None: it would have to wait.
    Nothing,
    /// None: the other side has ended, or is gone.
    Ended,
}

/// What a call that answered this has moved.
fn moved_by(answer: io::Result<usize>, most: usize) -> Moved
    requires { IfOk answer (λ n. n ≤ most) }
    ensures { MovesAtMost most result }
{
    match answer {
        Ok(0) => Moved::Ended,
        Ok(count) => Moved::Bytes(count),
        Err(error) if is_later(error.kind()) => Moved::Nothing,
        Err(_) => Moved::Ended,
    }
}

/// Whether a call that failed so is to be made again later.
fn is_later(kind: ErrorKind) -> bool {
    matches!(kind, ErrorKind::WouldBlock | ErrorKind::Interrupted)
}

impl Wire {
    /// Takes bytes that have come to the front of the buffer, which is not empty.
    pub fn read(&self, into: &mut [u8]) -> Moved
        ensures { MovesAtMost (length into.old) result }
    {
        let most = into.len();
        let answer = match self {
            Wire::Door(stream) => {
                let mut stream = stream;
                stream.read(into)
            }
            Wire::Page(stream) => {
                let mut stream = stream;
                stream.read(into)
            }
            Wire::Streams { input, .. } => {
                if !may_read(*input) {
                    return Moved::Nothing;
                }
                read_front(*input, into)
            }
        };
        moved_by(answer, most)
    }

    /// Gives a front of the bytes, which are not none.
    pub fn write(&self, bytes: &[u8]) -> Moved
        ensures { MovesAtMost (length bytes.now) result }
    {
        let answer = match self {
            Wire::Door(stream) => {
                let mut stream = stream;
                stream.write(bytes)
            }
            Wire::Page(stream) => {
                let mut stream = stream;
                stream.write(bytes)
            }
            Wire::Streams { output, .. } => {
                if !may_write(*output) {
                    return Moved::Nothing;
                }
                write_front(*output, bytes)
            }
        };
        moved_by(answer, bytes.len())
    }

    /// The descriptor from which bytes come.
    pub fn input(&self) -> i32 {
        match self {
            Wire::Door(stream) => stream.as_raw_fd(),
            Wire::Page(stream) => stream.as_raw_fd(),
            Wire::Streams { input, .. } => *input,
        }
    }

    /// The descriptor to which bytes go.
    pub fn output(&self) -> i32 {
        match self {
            Wire::Door(stream) => stream.as_raw_fd(),
            Wire::Page(stream) => stream.as_raw_fd(),
            Wire::Streams { output, .. } => *output,
        }
    }
}
