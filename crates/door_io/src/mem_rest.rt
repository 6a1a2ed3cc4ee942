ghost use Rattle.std.specs.Prelude.{◌≡◌, Some, None};

use crate::rest::Rest;

/// A rest in memory: it returns at once, and keeps how long the last rest was to be at most.
#[derive(Drop)]
pub struct MemRest {
    last: Option<u64>,
}

impl MemRest {
    /// There was no rest.
    pub fn new() -> Self
        ensures { result.last ≡ None }
    {
        MemRest { last: None }
    }

    /// How many ticks the last rest was to last at most; None where there was none.
    pub fn last(&self) -> Option<u64>
        ensures { result ≡ self.now.last }
    {
        self.last
    }
}

impl Rest for MemRest {
    fn rest(&mut self, most: u64)
        ensures { self.new.last ≡ Some most }
    {
        self.last = Some(most);
    }
}
