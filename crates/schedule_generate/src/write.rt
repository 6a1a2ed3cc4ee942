ghost use Rattle.std.specs.Prelude.{◌≡◌, ◌≤◌, ◌+◌, ◌^◌, ℕ, List, [], Err, OnOk};
ghost use Rattle.edge_io.specs.Edge.{HasRisen};
ghost use Rattle.fabric_status.specs.Writes.{Wrote};
ghost use Rattle.schedule_generate.specs.Course.{Course, is_full, latest_round, round_unless, rounds};
ghost use Rattle.schedule_generate.specs.Goes.{At, IsAt, IsSettled, Made, Rounded, WentAll};
ghost use Rattle.schedule_generate.specs.Laws.{judged_of};
ghost use Rattle.schedule_generate.specs.Settings.{generated_config, most_generated_nodes};
ghost use Rattle.schedule_generate.specs.Texts.{all_written, ended, gen_text, generated};
ghost use Rattle.schedule_rules.specs.Schedule.{judge};

use crate::course_halt::CourseHalt;
use crate::course_observer::CourseObserver;
use crate::generator::Generator;
use crate::moves::Move;
use crate::opening::opening_moves;
use edge_io::{EdgeRefusal, Sink};
use fabric_status::{Status, write_last};
use schedule_rules::{send_full, write_fault};
use std::alloc::Global;

/// Goes one more round, unless none may begin, and writes what waits where it is long.
fn go_round<L: CourseObserver, K: Sink>(
    generator: &mut Generator,
    moves: &mut Vec<Move>,
    listener: &mut L,
    text: &mut Vec<u8>,
    sink: &mut K,
) -> Result<(), CourseHalt>
    requires at { IsAt L.writing (L.knows listener.old) generator.old text.old.items }
    requires early { generator.old.time ≤ latest_round }
    requires some { 1 ≤ generator.old.nodes }
    requires few { generator.old.nodes ≤ most_generated_nodes }
    ensures went { (g : Course) (sent : List ℕ) →
        At L.writing (L.knows listener.old) generator.old.nodes generator.old text.old.items g sent →
        Rounded L.writing (L.knows listener.new) generator.old.nodes result generator.new text.new.items
        (round_unless (generated_config generator.old.nodes) generator.old.nodes g
        (is_full (generated_config generator.old.nodes) g)) sent (K.held sink.old) (K.held sink.new) }
    ensures later { OnOk result (generator.new.time ≤ generator.old.time + 100) }
    ensures nodes { generator.new.nodes ≡ generator.old.nodes }
    ensures failed { result ≡ Err CourseHalt.SinkFailed → HasRisen (K.faults sink.old) (K.faults sink.new) }
    ensures faults { K.faults sink.old ≤ K.faults sink.new }
{
    if generator.is_full() {
        return Ok(());
    }
    match generator.round(moves, listener, text) {
        Ok(()) => match send_full(sink, text) {
            Ok(()) => Ok(()),
            Err(EdgeRefusal::Failed) => Err(CourseHalt::SinkFailed),
            Err(EdgeRefusal::OutOfMemory) => Err(CourseHalt::OutOfMemory),
        },
        Err(halt) => Err(halt),
    }
}

/// Goes so many rounds, and writes what waits behind each where it is long.
fn go_rounds<L: CourseObserver, K: Sink>(
    generator: &mut Generator,
    count: u32,
    moves: &mut Vec<Move>,
    listener: &mut L,
    text: &mut Vec<u8>,
    sink: &mut K,
) -> Result<(), CourseHalt>
    requires at { IsAt L.writing (L.knows listener.old) generator.old text.old.items }
    requires time { generator.old.time ≡ 0 }
    requires some { 1 ≤ generator.old.nodes }
    requires few { generator.old.nodes ≤ most_generated_nodes }
    ensures went { (g : Course) → At L.writing (L.knows listener.old)
        generator.old.nodes generator.old text.old.items g [] →
        WentAll L.writing (L.knows listener.new) generator.old.nodes result generator.new text.new.items
        (rounds (generated_config generator.old.nodes) generator.old.nodes count g) (K.held sink.old) (K.held sink.new) }
    ensures failed { result ≡ Err CourseHalt.SinkFailed → HasRisen (K.faults sink.old) (K.faults sink.new) }
    ensures later { K.faults sink.old ≤ K.faults sink.new }
{
    for _round in 0..count {
        match go_round(generator, moves, listener, text, sink) {
            Ok(()) => {}
            Err(halt) => return Err(halt),
        }
    }
    Ok(())
}

/// What the words of a generated schedule say: its seed, how many nodes it has, and how many rounds it goes.
#[derive(Clone, Copy)]
struct CourseWords {
    seed: u64,
    nodes: u16,
    rounds: u32,
}

/// Makes the schedule, and writes or leaves in the text what is written of it.
fn make<L: CourseObserver, K: Sink>(
    alloc: Global,
    course: CourseWords,
    listener: &mut L,
    text: &mut Vec<u8>,
    sink: &mut K,
) -> Result<(), CourseHalt>
    requires known { L.knows listener.old course.nodes [] }
    requires empty { text.old.items ≡ [] }
    requires some { 1 ≤ course.nodes }
    requires few { course.nodes ≤ most_generated_nodes }
    ensures made { Made course.nodes (L.writing course.nodes) result text.new.items
        (generated course.seed course.nodes course.rounds) (K.held sink.old) (K.held sink.new) }
    ensures failed { result ≡ Err CourseHalt.SinkFailed → HasRisen (K.faults sink.old) (K.faults sink.new) }
    ensures later { K.faults sink.old ≤ K.faults sink.new }
{
    match listener.begin(course.nodes, text) {
        Ok(()) => {}
        Err(_) => return Err(CourseHalt::OutOfMemory),
    }
    let mut generator = match Generator::new(alloc, course.seed, course.nodes) {
        Ok(generator) => generator,
        Err(_) => return Err(CourseHalt::OutOfMemory),
    };
    let mut moves = match opening_moves(alloc, course.nodes) {
        Ok(moves) => moves,
        Err(_) => return Err(CourseHalt::OutOfMemory),
    };
    match generator.take_all(&moves, listener, text) {
        Ok(()) => {}
        Err(halt) => return Err(halt),
    }
    match go_rounds(
        &mut generator,
        course.rounds,
        &mut moves,
        listener,
        text,
        sink,
    ) {
        Ok(()) => {}
        Err(halt) => return Err(halt),
    }
    match listener.end(&generator.world, text) {
        Ok(()) => Ok(()),
        Err(_) => Err(CourseHalt::OutOfMemory),
    }
}

/// Makes the schedule of a seed, so many nodes and so many rounds, and writes what the listener writes of it: all of
/// it, or the lines before the line that is too large, and its fault. At `OutOfMemory` and `WriteFault` the sink has a
/// front of it; `WriteFault` comes only where the sink's count of faults rose.
pub fn write_schedule<L: CourseObserver, K: Sink>(
    alloc: Global,
    seed: u64,
    nodes: u16,
    count: u32,
    listener: &mut L,
    sink: &mut K,
) -> Status
    requires known { L.knows listener.old nodes [] }
    requires some { 1 ≤ nodes }
    requires few { nodes ≤ most_generated_nodes }
    ensures judged { IsSettled result → judge (gen_text seed nodes count) ≡ judged_of nodes (generated seed nodes count) }
    ensures wrote { Wrote (ended (generated seed nodes count))
        (all_written (L.writing nodes) (generated seed nodes count)) result (K.held sink.old) (K.held sink.new)
        (K.faults sink.old) (K.faults sink.new) }
{
    let mut text = Vec::new(alloc);
    let course = CourseWords {
        seed,
        nodes,
        rounds: count,
    };
    match make(alloc, course, listener, &mut text, sink) {
        Ok(()) => write_last(sink, &text, Status::Ok),
        Err(CourseHalt::TooLarge(line)) => {
            write_fault(alloc, sink, &mut text, Status::TooLarge(line))
        }
        Err(CourseHalt::OutOfMemory) => Status::OutOfMemory,
        Err(CourseHalt::SinkFailed) => Status::WriteFault,
    }
}
