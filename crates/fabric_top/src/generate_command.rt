ghost use Rattle.std.specs.Prelude.{◌≤◌};
ghost use Rattle.fabric_top.specs.Generating.{WritesMade};
ghost use Rattle.schedule_generate.specs.Settings.{most_generated_nodes};
ghost use Rattle.schedule_generate.specs.Texts.{drill_writing, generate_writing};

use edge_io::Sink;
use fabric_status::Status;
use schedule_generate::{drill, generate};
use std::alloc::Global;

/// Writes the schedule of a seed, of so many nodes and rounds.
pub fn generate_schedule<K: Sink>(
    alloc: Global,
    seed: u64,
    nodes: u16,
    rounds: u32,
    sink: &mut K,
) -> Status
    requires some { 1 ≤ nodes }
    requires few { nodes ≤ most_generated_nodes }
    ensures { WritesMade generate_writing seed nodes rounds result (K.held sink.old) (K.held sink.new)
        (K.faults sink.old) (K.faults sink.new) }
{
    generate(alloc, seed, nodes, rounds, sink)
}

/// Runs that schedule, and writes its summary.
pub fn drill_schedule<K: Sink>(
    alloc: Global,
    seed: u64,
    nodes: u16,
    rounds: u32,
    sink: &mut K,
) -> Status
    requires some { 1 ≤ nodes }
    requires few { nodes ≤ most_generated_nodes }
    ensures { WritesMade drill_writing seed nodes rounds result (K.held sink.old) (K.held sink.new) (K.faults sink.old)
        (K.faults sink.new) }
{
    drill(alloc, seed, nodes, rounds, sink)
}
