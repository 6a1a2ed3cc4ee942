ghost use Rattle.std.specs.Prelude.{◌≡◌};
ghost use Rattle.edge_io.specs.Memory.{fresh_sink};

use crate::fault_plan::FaultPlan;
use crate::refusal::EdgeRefusal;
use crate::sink::Sink;
use std::alloc::Global;
use std::marker::Model;

/// Bytes in memory to write to. It tells all: the bytes held, and which calls fail.
#[derive(Drop)]
pub struct MemSink {
    bytes: Vec<u8>,
    faults: FaultPlan,
}

impl Model for MemSink {
    ghost use Rattle.edge_io.specs.Memory.{ToldSink};

    ghost Value = { ToldSink };

    ghost view = { λ a. record { held = a.bytes.items; faults = a.faults } };
}

impl MemSink {
    /// Nothing is held, and the calls of the listed numbers, from 1, fail.
    pub fn new(alloc: Global, fail: Vec<u64>) -> Self
        ensures { result ≡ fresh_sink fail.items }
    {
        MemSink {
            bytes: Vec::new(alloc),
            faults: FaultPlan::new(fail),
        }
    }

    /// The bytes held.
    pub fn held(&self) -> &[u8]
        ensures { result.now ≡ self.now.held }
    {
        &self.bytes
    }
}

impl Sink for MemSink {
    ghost use Rattle.std.specs.Prelude.{Some};

    ghost held = { λ s. Some s.held };

    ghost faults = { λ s. s.faults.faults };

    ghost plan = { λ s. Some s.faults.plan };

    fn write(&mut self, piece: &[u8]) -> Result<usize, EdgeRefusal> {
        if self.faults.next_fails() {
            return Err(EdgeRefusal::Failed);
        }
        match self.bytes.extend_from_slice(piece) {
            Ok(()) => Ok(piece.len()),
            Err(_) => Err(EdgeRefusal::OutOfMemory),
        }
    }
}
