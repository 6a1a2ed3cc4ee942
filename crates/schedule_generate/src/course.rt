// A round of a generated schedule.
ghost use Rattle.std.specs.Prelude.{◌≡◌, ◌+◌, ◌≤◌, ◌<◌, ◌^◌, ℕ, List, OnOk, false, map};
ghost use Rattle.unit_rules.specs.Ruled.{ruled};
ghost use Rattle.fabric_terms.specs.Ranges.{AreReadings};
ghost use Rattle.schedule_generate.specs.Course.{Course, considered_next, fires, is_full, latest_round, round, running};
ghost use Rattle.schedule_generate.specs.Course.{with_firings, with_gives, with_tick, with_turn};
ghost use Rattle.schedule_generate.specs.Goes.{At, Goes, HasMore, HasShown, IsAt, Went};
ghost use Rattle.schedule_generate.specs.Moves.{events_for};
ghost use Rattle.schedule_generate.specs.Settings.{generated_config, most_generated_nodes};
ghost use Rattle.schedule_generate.specs.Shown.{nodes_of, shown};

use crate::course_halt::{CourseHalt, halt_of};
use crate::course_observer::CourseObserver;
use crate::generator::Generator;
use crate::moves::Move;
use fabric_terms::OutOfMemory;
use rand_core::utils::NextWord;
use ring_points::Who;

/// The ticks of each round.
const TICK: u64 = 100;

/// The nodes of these clocks, each with this reading.
fn show_all(
    readings: &mut Vec<(u16, u64)>,
    clocks: &[(Who, u64)],
    time: u64,
) -> Result<(), OutOfMemory>
    ensures { OnOk result (readings.new.items ≡ shown time clocks.now) }
{
    readings.clear();
    for i in 0..clocks.len() {
        readings.push((clocks[i].0.actor, time))?;
    }
    Ok(())
}

/// The firings of the nodes of these readings.
fn push_firings(moves: &mut Vec<Move>, readings: &[(u16, u64)]) -> Result<(), OutOfMemory>
    ensures { OnOk result (events_for moves.new.items ≡ map fires (nodes_of readings.now)) }
{
    moves.clear();
    for i in 0..readings.len() {
        moves.push(Move::Fire(readings[i].0))?;
    }
    Ok(())
}

impl Generator {
    /// The clock of each running node shows the true time. The firings of these nodes are put into the list of moves
    /// before, so that what follows the tick takes no memory of its own.
    fn tick<L: CourseObserver>(
        &mut self,
        moves: &mut Vec<Move>,
        listener: &mut L,
        text: &mut Vec<u8>,
    ) -> Result<(), CourseHalt>
        requires at { IsAt L.writing (L.knows listener.old) self.old text.old.items }
        requires room { (n : ℕ) (g : Course) → Goes n self.old g → is_full (generated_config n) g ≡ false }
        requires early { self.old.time ≤ latest_round }
        requires few { self.old.nodes ≤ most_generated_nodes }
        ensures went { (g : Course) (sent : List ℕ) →
            At L.writing (L.knows listener.old) self.old.nodes self.old text.old.items g sent →
            Went L.writing (L.knows listener.new) self.old.nodes result self.new text.new.items
            (with_tick (generated_config self.old.nodes) g) sent }
        ensures shown { (g : Course) (sent : List ℕ) →
            At L.writing (L.knows listener.old) self.old.nodes self.old text.old.items g sent →
            OnOk result (nodes_of self.new.readings.items ≡ running
            (ruled (generated_config self.old.nodes) (with_tick (generated_config self.old.nodes) g).history)) }
        ensures fit { OnOk result (AreReadings self.new.readings.items) }
        ensures moves { OnOk result (events_for moves.new.items ≡ map fires (nodes_of self.new.readings.items)) }
        ensures later { OnOk result (self.new.time ≡ self.old.time + 100) }
        ensures nodes { self.new.nodes ≡ self.old.nodes }
    {
        let line = self.line;
        let time = self.time + TICK;
        show_all(&mut self.readings, self.world.clocks(), time)?;
        push_firings(moves, &self.readings)?;
        match self.world.tick(TICK, &self.readings) {
            Ok(()) => {
                listener.ticked(&self.world, line, TICK, &self.readings, text)?;
                self.line = line + 1;
                self.time = time;
                Ok(())
            }
            Err(refusal) => Err(halt_of(refusal, line)),
        }
    }

    /// A draw decides of the next frame, behind those considered before, whether it is lost, given twice or given once.
    fn consider<L: CourseObserver>(
        &mut self,
        before: u32,
        listener: &mut L,
        text: &mut Vec<u8>,
    ) -> Result<(), CourseHalt>
        requires at { HasMore L.writing (L.knows listener.old) self.old text.old.items before }
        requires before { before ≡ self.old.considered }
        requires few { before < 2 ^ 31 }
        ensures went { (g : Course) (sent : List ℕ) →
            At L.writing (L.knows listener.old) self.old.nodes self.old text.old.items g sent →
            Went L.writing (L.knows listener.new) self.old.nodes result self.new text.new.items
            (considered_next (generated_config self.old.nodes) g) sent }
        ensures counted { self.new.considered ≡ before + 1 }
        ensures still { self.new.time ≡ self.old.time }
        ensures nodes { self.new.nodes ≡ self.old.nodes }
    {
        self.considered = before + 1;
        let frame = Move::Give(u64::from(before + 1));
        let draw = self.draws.next_word() % 8;
        if draw == 0 {
            return Ok(());
        }
        if draw == 1 {
            return self.take_all(&[frame, frame], listener, text);
        }
        self.take(frame, listener, text)
    }

    /// All frames that were sent so far and not considered yet, in their order.
    fn give<L: CourseObserver>(
        &mut self,
        listener: &mut L,
        text: &mut Vec<u8>,
    ) -> Result<(), CourseHalt>
        requires at { IsAt L.writing (L.knows listener.old) self.old text.old.items }
        ensures went { (g : Course) (sent : List ℕ) →
            At L.writing (L.knows listener.old) self.old.nodes self.old text.old.items g sent →
            Went L.writing (L.knows listener.new) self.old.nodes result self.new text.new.items
            (with_gives (generated_config self.old.nodes) g) sent }
        ensures still { self.new.time ≡ self.old.time }
        ensures nodes { self.new.nodes ≡ self.old.nodes }
    {
        let sent = self.world.counts().1;
        for before in self.considered..sent {
            match self.consider(before, listener, text) {
                Ok(()) => {}
                Err(halt) => return Err(halt),
            }
        }
        Ok(())
    }

    /// The frames of a round, and the turn of a node.
    fn give_and_turn<L: CourseObserver>(
        &mut self,
        listener: &mut L,
        text: &mut Vec<u8>,
    ) -> Result<(), CourseHalt>
        requires at { IsAt L.writing (L.knows listener.old) self.old text.old.items }
        requires some { 1 ≤ self.old.nodes }
        requires few { self.old.nodes ≤ most_generated_nodes }
        ensures went { (g : Course) (sent : List ℕ) →
            At L.writing (L.knows listener.old) self.old.nodes self.old text.old.items g sent →
            Went L.writing (L.knows listener.new) self.old.nodes result self.new text.new.items
            (with_turn (generated_config self.old.nodes) self.old.nodes
            (with_gives (generated_config self.old.nodes) g)) sent }
        ensures still { self.new.time ≡ self.old.time }
        ensures nodes { self.new.nodes ≡ self.old.nodes }
    {
        match self.give(listener, text) {
            Ok(()) => self.turn(listener, text),
            Err(halt) => Err(halt),
        }
    }

    /// What follows the tick of a round: these firings, frames, and the turn of a node.
    fn go_on<L: CourseObserver>(
        &mut self,
        moves: &[Move],
        listener: &mut L,
        text: &mut Vec<u8>,
    ) -> Result<(), CourseHalt>
        requires at { HasShown L.writing (L.knows listener.old) self.old text.old.items }
        requires some { 1 ≤ self.old.nodes }
        requires few { self.old.nodes ≤ most_generated_nodes }
        requires fit { AreReadings self.old.readings.items }
        requires moves { events_for moves.now ≡ map fires (nodes_of self.old.readings.items) }
        ensures went { (g : Course) (sent : List ℕ) →
            At L.writing (L.knows listener.old) self.old.nodes self.old text.old.items g sent →
            nodes_of self.old.readings.items ≡ running (ruled (generated_config self.old.nodes) g.history) →
            Went L.writing (L.knows listener.new) self.old.nodes result self.new text.new.items
            (with_turn (generated_config self.old.nodes) self.old.nodes
            (with_gives (generated_config self.old.nodes) (with_firings (generated_config self.old.nodes) g))) sent }
        ensures still { self.new.time ≡ self.old.time }
        ensures nodes { self.new.nodes ≡ self.old.nodes }
    {
        match self.take_all(moves, listener, text) {
            Ok(()) => self.give_and_turn(listener, text),
            Err(halt) => Err(halt),
        }
    }

    /// A round: a tick, firings, frames, and the turn of a node. The list of moves serves each round. Memory is short
    /// only at an event that the limits let come.
    pub fn round<L: CourseObserver>(
        &mut self,
        moves: &mut Vec<Move>,
        listener: &mut L,
        text: &mut Vec<u8>,
    ) -> Result<(), CourseHalt>
        requires at { IsAt L.writing (L.knows listener.old) self.old text.old.items }
        requires room { (n : ℕ) (g : Course) → Goes n self.old g → is_full (generated_config n) g ≡ false }
        requires early { self.old.time ≤ latest_round }
        requires some { 1 ≤ self.old.nodes }
        requires few { self.old.nodes ≤ most_generated_nodes }
        ensures went { (g : Course) (sent : List ℕ) →
            At L.writing (L.knows listener.old) self.old.nodes self.old text.old.items g sent →
            Went L.writing (L.knows listener.new) self.old.nodes result self.new text.new.items
            (round (generated_config self.old.nodes) self.old.nodes g) sent }
        ensures later { OnOk result (self.new.time ≡ self.old.time + 100) }
        ensures nodes { self.new.nodes ≡ self.old.nodes }
    {
        match self.tick(moves, listener, text) {
            Ok(()) => self.go_on(moves, listener, text),
            Err(halt) => Err(halt),
        }
    }
}
