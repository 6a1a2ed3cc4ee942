ghost use Rattle.std.specs.Prelude.{◌≡◌, ◌≤◌, length, IfOk};

use crate::failures::Failures;
use crate::signals::{MAX_CALLS, is_cut_short};
use edge_io::{Failed, Source};
use std::io;
use std::io::{ErrorKind, Read};
use std::marker::Model;

/// Standard input. Contracts see how often it failed.
#[derive(Drop)]
pub struct StdinSource<'a, R: Input> {
    rt: &'a R,
    failures: Failures,
}

impl<'a, R: Input> Model for StdinSource<'a, R> {
    ghost use Rattle.std.specs.Prelude.{ℕ};

    ghost Value = { ℕ };

    ghost view = { λ a. a.failures };
}

impl<'a, R: Input> StdinSource<'a, R> {
    pub fn new(rt: &'a R) -> Self
        ensures { result ≡ 0 }
    {
        StdinSource {
            rt,
            failures: Failures::none(),
        }
    }
}

/// Takes some bytes of the reader.
fn read_some<R: Read>(reader: &mut R, into: &mut [u8]) -> io::Result<usize>
    ensures { IfOk result (λ n. n ≤ length into.old) }
{
    for _ in 0..MAX_CALLS {
        match reader.read(into) {
            Err(error) if is_cut_short(&error) => {}
            read => return read,
        }
    }
    Err(io::Error::from(ErrorKind::Interrupted))
}

impl<R: Input> Source for StdinSource<'_, R> {
    ghost use Rattle.std.specs.Prelude.{None};

    ghost left = { λ s. None };

    ghost faults = { λ s. s };

    ghost plan = { λ s. None };

    fn read(&mut self, into: &mut [u8]) -> Result<usize, Failed> {
        match read_some(&mut self.rt.reader(), into) {
            Ok(count) => Ok(count),
            Err(_) => {
                self.failures.add();
                Err(Failed)
            }
        }
    }
}
