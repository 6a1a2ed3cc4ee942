ghost use Rattle.std.specs.Prelude.{◌≡◌};
ghost use Rattle.edge_io.specs.Memory.{fresh_source};

use crate::fault_plan::FaultPlan;
use crate::refusal::Failed;
use crate::source::Source;
use std::marker::Model;

/// Bytes in memory to read from. It tells all: the bytes left, and which calls fail.
#[derive(Drop)]
pub struct MemSource {
    bytes: Vec<u8>,
    at: usize,
    faults: FaultPlan,
}

impl Model for MemSource {
    ghost use Rattle.std.specs.Prelude.{◌≤◌, drop, length};
    ghost use Rattle.edge_io.specs.Memory.{ToldSource};

    ghost Value = { ToldSource };

    ghost view = { λ a. record { left = drop a.at a.bytes.items; faults = a.faults } };

    ghost invariant = { λ a. a.at ≤ length a.bytes.items };
}

impl MemSource {
    /// These bytes are left, and the calls of the listed numbers, from 1, fail.
    pub fn new(bytes: Vec<u8>, fail: Vec<u64>) -> Self
        ensures { result ≡ fresh_source bytes.items fail.items }
    {
        MemSource {
            bytes,
            at: 0,
            faults: FaultPlan::new(fail),
        }
    }
}

impl Source for MemSource {
    ghost use Rattle.std.specs.Prelude.{Some};

    ghost left = { λ s. Some s.left };

    ghost faults = { λ s. s.faults.faults };

    ghost plan = { λ s. Some s.faults.plan };

    fn read(&mut self, into: &mut [u8]) -> Result<usize, Failed> {
        if self.faults.next_fails() {
            return Err(Failed);
        }
        let count = into.len().min(self.bytes.len() - self.at);
        into[..count].copy_from_slice(&self.bytes[self.at..self.at + count]);
        self.at += count;
        Ok(count)
    }
}
