ghost use Rattle.std.specs.Prelude.{◌≡◌, ◌≤◌, length, IfOk};

use crate::failures::Failures;
use crate::signals::{MAX_CALLS, is_cut_short};
use edge_io::{EdgeRefusal, Sink};
use std::io;
use std::io::{ErrorKind, Write};
use std::marker::Model;

/// Standard output. It takes no memory. Contracts see how often it failed.
#[derive(Drop)]
pub struct StdoutSink<'a, R: Print> {
    rt: &'a R,
    failures: Failures,
}

impl<'a, R: Print> Model for StdoutSink<'a, R> {
    ghost use Rattle.std.specs.Prelude.{ℕ};

    ghost Value = { ℕ };

    ghost view = { λ a. a.failures };
}

impl<'a, R: Print> StdoutSink<'a, R> {
    pub fn new(rt: &'a R) -> Self
        ensures { result ≡ 0 }
    {
        StdoutSink {
            rt,
            failures: Failures::none(),
        }
    }
}

/// Gives the writer a front of the bytes, and says how long a front.
fn write_some<W: Write>(writer: &mut W, bytes: &[u8]) -> io::Result<usize>
    ensures { IfOk result (λ n. n ≤ length bytes.now) }
{
    for _ in 0..MAX_CALLS {
        match writer.write(bytes) {
            Err(error) if is_cut_short(&error) => {}
            written => return written,
        }
    }
    Err(io::Error::from(ErrorKind::Interrupted))
}

impl<R: Print> Sink for StdoutSink<'_, R> {
    ghost use Rattle.std.specs.Prelude.{None};

    ghost held = { λ s. None };

    ghost faults = { λ s. s };

    ghost plan = { λ s. None };

    fn write(&mut self, piece: &[u8]) -> Result<usize, EdgeRefusal> {
        match write_some(&mut io::writer(self.rt), piece) {
            Ok(count) if count > 0 || piece.is_empty() => Ok(count),
            _ => {
                self.failures.add();
                Err(EdgeRefusal::Failed)
            }
        }
    }
}
