ghost use Rattle.std.specs.Prelude.{◌≡◌, []};

use edge_io::{EdgeRefusal, Sink};
use std::alloc::Global;

/// A text in memory as a sink, which refuses a write where memory is short and never fails.
#[derive(Drop)]
pub struct TextSink {
    pub text: Vec<u8>,
}

impl TextSink {
    /// No text yet.
    pub fn new(alloc: Global) -> Self
        ensures { result.text.items ≡ [] }
    {
        TextSink {
            text: Vec::new(alloc),
        }
    }
}

impl Sink for TextSink {
    ghost use Rattle.std.specs.Prelude.{Some, None};

    ghost held = { λ s. Some s.text.items };

    ghost faults = { λ s. 0 };

    ghost plan = { λ s. None };

    fn write(&mut self, piece: &[u8]) -> Result<usize, EdgeRefusal> {
        match self.text.extend_from_slice(piece) {
            Ok(()) => Ok(piece.len()),
            Err(_) => Err(EdgeRefusal::OutOfMemory),
        }
    }
}
