// The run of a schedule: its lines are taken from a source, and what is told of them goes to a sink.
ghost use Rattle.std.specs.Prelude.{◌≡◌, ◌≢◌, ◌≤◌, ◌++◌, ℕ, List, [], Some, Ok, Err, IsTrue, OnErr};
ghost use Rattle.edge_io.specs.Edge.{HasRisen};
ghost use Rattle.fabric_config.specs.Config.{config_of_line};
ghost use Rattle.fabric_terms.specs.declared.config.FabricConfig.{FabricConfig as Configuration};
ghost use Rattle.ring_world.specs.Answers.{IsWorld};
ghost use Rattle.line_format.specs.Lines.{lines_of};
ghost use Rattle.schedule_replay.specs.Begins.{Begins};
ghost use Rattle.schedule_replay.specs.Halting.{HaltsRightly};
ghost use Rattle.schedule_replay.specs.Statuses.{may_end_replay};
ghost use Rattle.schedule_replay.specs.Waits.{FrontOf};
ghost use Rattle.schedule_rules.specs.Endings.{EndsSo};
ghost use Rattle.schedule_replay.specs.Follows.{At, TakesNext};
ghost use Rattle.schedule_rules.specs.Halts.{EndsLines, HaltsAt};
ghost use Rattle.schedule_rules.specs.Schedule.{judge, judge_from};
ghost use Rattle.schedule_rules.specs.Telling.{IsTold, lines_judged};
ghost use Rattle.source_lines.specs.Reading.{may_wait};
ghost use Rattle.world_rules.specs.Runs.{History};

use crate::page::{send_due, send_fault};
use crate::run_observer::RunObserver;
use crate::schedule::take_line;
use crate::schedule_reader::ScheduleReader;
use edge_io::{EdgeRefusal, Sink, Source};
use fabric_config::{ConfigError, read_config};
use fabric_status::{Refusal, Status, write_last};
use ring_world::World;
use schedule_rules::Halt;
use source_lines::{MAX_FIRST_LINE, MAX_LINE, NextLine};
use std::alloc::Global;

/// Takes the next line of the source, and says whether there was one. Nothing waits unsent where the source may be
/// waited for. A line for which memory is short leaves the text as it was.
fn take_next<T: RunObserver, S: Source>(
    world: &mut World,
    teller: &mut T,
    reader: &mut ScheduleReader,
    source: &mut S,
    number: u64,
    text: &mut Vec<u8>,
) -> Result<bool, Halt>
    requires world { IsWorld world.old }
    requires sent { IsTrue (may_wait reader.old.lines) → text.old.items ≡ [] }
    ensures next { (c : Configuration) (h : History) → At world.old (T.knows teller.old) c h →
        TakesNext T.telling c h number result world.new (T.knows teller.new) text.old.items text.new.items
        reader.old.lines.waiting (S.left source.old) reader.new.lines.waiting (S.left source.new) }
    ensures short { result ≡ Err Halt.OutOfMemory → text.new.items ≡ text.old.items }
    ensures failed { result ≡ Err Halt.SourceFailed → HasRisen (S.faults source.old) (S.faults source.new) }
    ensures later { S.faults source.old ≤ S.faults source.new }
    ensures sink { result ≢ Err Halt.SinkFailed }
    ensures may { (c : Configuration) (h : History) → At world.old (T.knows teller.old) c h → HaltsRightly result }
{
    let finished = text.len();
    match reader.lines.next(source, MAX_LINE) {
        Err(_) => Err(Halt::SourceFailed),
        Ok(NextLine::End) => Ok(false),
        Ok(NextLine::TooLong) => Err(Halt::Refused(Refusal::TooLarge(number))),
        Ok(NextLine::Line) => match take_line(
            world,
            teller,
            number,
            reader.lines.line(),
            &mut reader.places,
            text,
        ) {
            Ok(None) => Ok(true),
            Ok(Some(refusal)) => Err(Halt::Refused(refusal)),
            Err(_) => {
                text.truncate(finished);
                Err(Halt::OutOfMemory)
            }
        },
    }
}

/// Appends the ending. Where memory is short for it the text is as it was.
fn end_lines<T: RunObserver>(teller: &T, world: &World, text: &mut Vec<u8>) -> Result<(), Halt>
    ensures ends { (c : Configuration) (h : History) → At world.now (T.knows teller.now) c h →
        EndsLines result T.telling c h text.old.items text.new.items }
    ensures short { (c : Configuration) (h : History) → At world.now (T.knows teller.now) c h →
        OnErr result (text.new.items ≡ text.old.items) }
{
    let finished = text.len();
    match teller.end(world, text) {
        Ok(()) => Ok(()),
        Err(_) => {
            text.truncate(finished);
            Err(Halt::OutOfMemory)
        }
    }
}

/// Takes the lines behind line 1 in a world that has taken none, and writes what is told of them.
fn take_rest<T: RunObserver, S: Source, K: Sink>(
    world: &mut World,
    teller: &mut T,
    reader: &mut ScheduleReader,
    source: &mut S,
    text: &mut Vec<u8>,
    sink: &mut K,
) -> Result<(), Halt>
    requires first { (c : Configuration) × At world.old (T.knows teller.old) c [] }
    requires heading { text.old.items ≡ T.telling.heading }
    ensures halts { (c : Configuration) (bytes : List ℕ) → At world.old (T.knows teller.old) c [] →
        S.left source.old ≡ Some bytes → HaltsAt T.telling result
        (judge_from c [] 2 (lines_of (reader.old.lines.waiting ++ bytes))) (S.left source.new) (K.held sink.old)
        (K.held sink.new) text.new.items }
    ensures waits { (c : Configuration) (bytes : List ℕ) → At world.old (T.knows teller.old) c [] →
        S.left source.old ≡ Some bytes → result ≡ Err Halt.OutOfMemory → FrontOf T.telling
        (judge_from c [] 2 (lines_of (reader.old.lines.waiting ++ bytes))) (K.held sink.old) (K.held sink.new)
        text.new.items }
    ensures may { HaltsRightly result }
    ensures source_failed { result ≡ Err Halt.SourceFailed → HasRisen (S.faults source.old) (S.faults source.new) }
    ensures sink_failed { result ≡ Err Halt.SinkFailed → HasRisen (K.faults sink.old) (K.faults sink.new) }
    ensures later { K.faults sink.old ≤ K.faults sink.new }
{
    for number in 2..u64::MAX {
        match send_due(&reader.lines, text, sink) {
            Ok(()) => {}
            Err(EdgeRefusal::Failed) => return Err(Halt::SinkFailed),
            Err(EdgeRefusal::OutOfMemory) => return Err(Halt::OutOfMemory),
        }
        match take_next(world, teller, reader, source, number, text) {
            Ok(true) => {}
            Ok(false) => return end_lines(teller, world, text),
            Err(halt) => return Err(halt),
        }
    }
    Err(Halt::OutOfMemory)
}

/// The world of the configuration in line 1.
fn first_world(alloc: Global, line: &[u8]) -> Result<World, Halt>
    ensures { Begins (config_of_line line.now) result }
{
    match read_config(alloc, line) {
        Ok(config) => match World::new(alloc, config) {
            Ok(world) => Ok(world),
            Err(_) => Err(Halt::OutOfMemory),
        },
        Err(ConfigError::OutOfMemory) => Err(Halt::OutOfMemory),
        Err(error) => Err(Halt::Refused(Refusal::BadConfig(error))),
    }
}

/// Takes all lines, and writes what is told of them.
fn take_all<T: RunObserver, S: Source, K: Sink>(
    alloc: Global,
    teller: &mut T,
    source: &mut S,
    text: &mut Vec<u8>,
    sink: &mut K,
) -> Result<(), Halt>
    requires knows { (c : Configuration) → T.knows teller.old c [] }
    requires heading { text.old.items ≡ T.telling.heading }
    ensures halts { (bytes : List ℕ) → S.left source.old ≡ Some bytes →
        HaltsAt T.telling result (judge bytes) (S.left source.new) (K.held sink.old) (K.held sink.new) text.new.items }
    ensures waits { (bytes : List ℕ) → S.left source.old ≡ Some bytes → result ≡ Err Halt.OutOfMemory →
        FrontOf T.telling (judge bytes) (K.held sink.old) (K.held sink.new) text.new.items }
    ensures may { HaltsRightly result }
    ensures source_failed { result ≡ Err Halt.SourceFailed → HasRisen (S.faults source.old) (S.faults source.new) }
    ensures sink_failed { result ≡ Err Halt.SinkFailed → HasRisen (K.faults sink.old) (K.faults sink.new) }
    ensures later { K.faults sink.old ≤ K.faults sink.new }
{
    let mut reader = match ScheduleReader::new(alloc) {
        Ok(reader) => reader,
        Err(_) => return Err(Halt::OutOfMemory),
    };
    match reader.lines.next(source, MAX_FIRST_LINE) {
        Err(_) => Err(Halt::SourceFailed),
        Ok(NextLine::End) => Err(Halt::Refused(Refusal::BadConfig(ConfigError::NotJson))),
        Ok(NextLine::TooLong) => Err(Halt::Refused(Refusal::TooLarge(1))),
        Ok(NextLine::Line) => match first_world(alloc, reader.lines.line()) {
            Ok(mut world) => take_rest(&mut world, teller, &mut reader, source, text, sink),
            Err(halt) => Err(halt),
        },
    }
}

/// Reads a schedule to its end, line by line, and writes what the teller tells of it: the heading, the lines of each
/// event, and the ending; or the lines before the refused line, and its fault; or those before a failing read, and that
/// it failed. What is told of a line is written before the next line may wait for the source. The memory is that of the
/// world, of a line, and of a text of fixed room; where memory is short, the lines that waited are written still.
/// `ReadFault` and `WriteFault` come only where that device's count of faults rose; at `OutOfMemory` and `WriteFault`
/// the sink has a front of what would have been written.
pub fn run_schedule<T: RunObserver, S: Source, K: Sink>(
    alloc: Global,
    teller: &mut T,
    source: &mut S,
    sink: &mut K,
) -> Status
    requires { (c : Configuration) → T.knows teller.old c [] }
    ensures statuses { IsTrue (may_end_replay result) }
    ensures read { result ≡ Status.Ok → (bytes : List ℕ) → S.left source.old ≡ Some bytes →
        S.left source.new ≡ Some [] }
    ensures written { (bytes : List ℕ) → S.left source.old ≡ Some bytes →
        EndsSo (IsTold T.telling) (lines_judged T.telling) result (judge bytes) (S.left source.new)
        (HasRisen (S.faults source.old) (S.faults source.new)) (K.held sink.old) (K.held sink.new) }
    ensures read_fault { result ≡ Status.ReadFault → HasRisen (S.faults source.old) (S.faults source.new) }
    ensures write_fault { result ≡ Status.WriteFault → HasRisen (K.faults sink.old) (K.faults sink.new) }
{
    let mut text = Vec::new(alloc);
    if text.extend_from_slice(teller.heading()).is_err() {
        return Status::OutOfMemory;
    }
    match take_all(alloc, teller, source, &mut text, sink) {
        Ok(()) => write_last(sink, &text, Status::Ok),
        Err(Halt::Refused(refusal)) => send_fault(alloc, &mut text, sink, refusal.status()),
        Err(Halt::SourceFailed) => send_fault(alloc, &mut text, sink, Status::ReadFault),
        Err(Halt::OutOfMemory) => write_last(sink, &text, Status::OutOfMemory),
        Err(Halt::SinkFailed) => Status::WriteFault,
    }
}
