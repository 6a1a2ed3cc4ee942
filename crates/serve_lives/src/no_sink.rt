ghost use Rattle.std.specs.Prelude.{None};

use edge_io::{EdgeRefusal, Sink};

/// A sink that takes all and tells nothing: a served process writes to its clients and to its log.
#[derive(Drop)]
pub struct NoSink {}

impl Sink for NoSink {
    ghost held = { λ s. None };

    ghost faults = { λ s. 0 };

    ghost plan = { λ s. None };

    fn write(&mut self, piece: &[u8]) -> Result<usize, EdgeRefusal> {
        Ok(piece.len())
    }
}
