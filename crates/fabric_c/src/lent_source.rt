ghost use Rattle.std.specs.Prelude.{◌≡◌};

use edge_io::{Failed, Source};

/// The bytes of a caller as a source, which never fails.
#[derive(Drop)]
pub struct LentSource<'a> {
    rest: &'a [u8],
}

impl<'a> LentSource<'a> {
    /// All of these bytes are left.
    pub fn new(bytes: &'a [u8]) -> Self
        ensures { result.rest.now ≡ bytes.now }
    {
        LentSource { rest: bytes }
    }
}

impl Source for LentSource<'_> {
    ghost use Rattle.std.specs.Prelude.{Some, None};

    ghost left = { λ s. Some s.rest.now };

    ghost faults = { λ s. 0 };

    ghost plan = { λ s. None };

    fn read(&mut self, into: &mut [u8]) -> Result<usize, Failed> {
        let bytes = self.rest;
        let count = into.len().min(bytes.len());
        let (front, rest) = bytes.split_at(count);
        into[..count].copy_from_slice(front);
        self.rest = rest;
        Ok(count)
    }
}
