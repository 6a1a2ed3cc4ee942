ghost use Rattle.std.specs.Prelude.{◌≡◌, ◌≤◌, IsTrue};
ghost use Rattle.fabric_status.specs.Writes.{Wrote};
ghost use Rattle.schedule_generate.specs.Goes.{IsSettled};
ghost use Rattle.schedule_generate.specs.Laws.{judged_of};
ghost use Rattle.schedule_generate.specs.Statuses.{may_end_generate};
ghost use Rattle.schedule_rules.specs.Schedule.{judge};
ghost use Rattle.schedule_generate.specs.Texts.{all_written, ended, gen_text, generate_writing, generated};
ghost use Rattle.schedule_generate.specs.Settings.{most_generated_nodes};

use crate::course_observer::CourseObserver;
use crate::lines::{push_move_line, push_tick_line};
use crate::moves::Move;
use crate::settings::push_config_line;
use crate::write::write_schedule;
use edge_io::Sink;
use fabric_status::Status;
use fabric_terms::OutOfMemory;
use ring_world::{Acted, World};
use std::alloc::Global;
use text_fields::push_bytes;

/// Writes each event. It keeps nothing.
#[derive(Drop)]
struct Lines {}

impl CourseObserver for Lines {
    ghost writing = { generate_writing };

    ghost knows = { λ _ n h. Unit {0} };

    fn begin(&self, nodes: u16, text: &mut Vec<u8>) -> Result<(), OutOfMemory> {
        push_config_line(text, nodes)?;
        push_bytes(text, b"\n")
    }

    fn took(
        &mut self,
        _world: &World,
        _line: u64,
        made: Move,
        _acted: &Option<Acted>,
        text: &mut Vec<u8>,
    ) -> Result<(), OutOfMemory> {
        push_move_line(text, made)
    }

    fn ticked(
        &mut self,
        _world: &World,
        _line: u64,
        advance: u64,
        readings: &[(u16, u64)],
        text: &mut Vec<u8>,
    ) -> Result<(), OutOfMemory> {
        push_tick_line(text, advance, readings)
    }

    fn end(&self, _world: &World, _text: &mut Vec<u8>) -> Result<(), OutOfMemory> {
        Ok(())
    }
}

/// Writes the schedule of a seed, so many nodes and so many rounds: its text, or the lines before the one that is too
/// large, and its fault. At `OutOfMemory` and `WriteFault` the sink has a front of that; `WriteFault` comes only where
/// the sink's count of faults rose.
#[tactic(auto, using(crate::proofs::Ends::may_end))]
pub fn generate<K: Sink>(alloc: Global, seed: u64, nodes: u16, rounds: u32, sink: &mut K) -> Status
    requires some { 1 ≤ nodes }
    requires few { nodes ≤ most_generated_nodes }
    ensures statuses { IsTrue (may_end_generate result) }
    ensures judged { IsSettled result → judge (gen_text seed nodes rounds) ≡ judged_of nodes
        (generated seed nodes rounds) }
    ensures wrote { Wrote (ended (generated seed nodes rounds))
        (all_written (generate_writing nodes) (generated seed nodes rounds)) result (K.held sink.old) (K.held sink.new)
        (K.faults sink.old) (K.faults sink.new) }
{
    write_schedule(alloc, seed, nodes, rounds, &mut Lines {}, sink)
}
